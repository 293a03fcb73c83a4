use bk_rule_text::print_rules;
use bk_rules_arm::arm_rules;
use std::test::Fail;

/// The bytes of the list's text.
const BYTES: usize = 6750;

#[test]
fn the_list_is_whole(rt: HostRuntime) -> Result<(), Fail> {
    let rules = arm_rules(rt.alloc()).ok().ok_or("no memory")?;
    assert_eq!(rt; rules.len(), 145);
    let text = print_rules(rt.alloc(), &rules).ok().ok_or("no memory")?;
    assert_eq!(rt; text.len(), BYTES);
    Ok(())
}
