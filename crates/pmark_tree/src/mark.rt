use delta::Delta;
use pk_base::Tag;

/// A mark of a tree: its parent, whether it is live, and the changes from its parent. A mark that
/// is not live has no parent and no changes.
#[derive(Drop)]
pub struct TreeMark {
    pub(crate) tag: Tag,
    pub(crate) parent: Option<Tag>,
    pub(crate) live: bool,
    pub(crate) delta: Delta,
}
