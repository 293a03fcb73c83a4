use bk_rule_text::print_rules;
use bk_rules_dec64::dec64_rules;
use std::test::Fail;

/// The bytes of the list's text.
const BYTES: usize = 4366;

#[test]
fn the_list_is_whole(rt: HostRuntime) -> Result<(), Fail> {
    let rules = dec64_rules(rt.alloc()).ok().ok_or("no memory")?;
    assert_eq!(rt; rules.len(), 49);
    let text = print_rules(rt.alloc(), &rules).ok().ok_or("no memory")?;
    assert_eq!(rt; text.len(), BYTES);
    Ok(())
}
