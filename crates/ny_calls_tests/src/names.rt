use ny_resolve::NameId;
use ny_scope::Scope;
use std::test::Fail;

// A name that is bound twice, and all bindings but the first are left.
#[test]
fn names_in_a_scope(rt: HostRuntime) -> Result<(), Fail> {
    let mut scope = Scope::new(rt.alloc());
    scope.bind(NameId(1), 10_u8)?;
    scope.bind(NameId(2), 20)?;
    scope.bind(NameId(1), 11)?;
    assert_eq!(rt; scope.find(&NameId(1)), Some(11));
    scope.leave(1);
    assert_eq!(rt; scope.find(&NameId(1)), Some(10));
    assert_eq!(rt; scope.find(&NameId(2)), None);
    Ok(())
}
