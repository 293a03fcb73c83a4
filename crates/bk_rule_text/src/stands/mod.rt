//! Whether the ops of a rule stand as they may.
ghost use Rattle.std.specs.Prelude.{◌≡◌, IfOk};
ghost use Rattle.bk_rule_text.specs.Texts.{stands};

mod class;
mod node;
mod said;
mod sort;
mod width;

use bk_rule::Rule;
use std::alloc::{AllocError, Global};

/// Whether each op is in a table, has its count of arguments and no part that it lacks, and each variable stands in
/// places of one kind; with `extra`, also whether each op is one that an extra rule may have, and all widths fit.
#[tactic(auto, unfolding(crate::specs::Texts::stands))]
pub fn stands(alloc: Global, rule: &Rule, extra: bool) -> Result<bool, AllocError>
    ensures { IfOk result (λ ok. ok ≡ stands extra rule.now) }
{
    if !node::has_its_parts(rule) || !sort::has_one_sort_each(alloc, rule)? {
        return Ok(false);
    }
    if extra {
        width::fits(alloc, rule)
    } else {
        Ok(true)
    }
}
