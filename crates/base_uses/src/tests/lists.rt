use pk_base::{Items, MarkRow, Tag};
use std::test::Fail;

const MARK: MarkRow = MarkRow {
    tag: Tag(70),
    parent: Some(Tag(64)),
};

#[test]
fn a_list_gives_its_items_back(rt: HostRuntime) -> Result<(), Fail> {
    let marks = Items::of(vec![in rt.alloc(); MARK]?);
    assert_eq!(rt; marks.into_vec().as_slice(), [MARK].as_slice());
    Ok(())
}
