use owner_links::Links;
use std::test::Fail;

#[test]
fn a_child_that_is_detached_is_gone(rt: HostRuntime) -> Result<(), Fail> {
    let mut links = Links::new(rt.alloc());
    links.grow()?;
    links.attach(1, 0);
    links.attach(2, 0);
    links.detach(1);
    let mut children = links.children(0);
    assert_eq!(rt; children.next(), Some(2));
    assert_eq!(rt; children.next(), None);
    assert_eq!(rt; links.owner_of(1), None);
    assert_eq!(rt; links.owner_of(2), Some(0));
    Ok(())
}
