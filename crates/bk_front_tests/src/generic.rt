use bk_rules_generic::generic_rules;
use std::test::Fail;

#[test]
fn the_list_is_whole(rt: HostRuntime) -> Result<(), Fail> {
    let rules = generic_rules(rt.alloc()).ok().ok_or("no memory")?;
    assert_eq!(rt; rules.len(), 286);
    Ok(())
}
