use bk_rules_rv::rv_rules;
use std::test::Fail;

#[test]
fn the_list_is_whole(rt: HostRuntime) -> Result<(), Fail> {
    let rules = rv_rules(rt.alloc()).ok().ok_or("no memory")?;
    assert_eq!(rt; rules.len(), 197);
    Ok(())
}
