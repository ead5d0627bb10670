ghost use Rattle.std.specs.Prelude.{◌≡◌, ◌<◌, ◌∷◌, [], IfOk};
ghost use Rattle.pk_base.specs.Blocks.{tag};
ghost use Rattle.pmark_tree.specs.Marks.{child_mark, initial_mark};

use delta::Delta;
use entity_store::Steps;
use pk_base::{NoMemory, Tag};
use pmark_tree::MarkTree;
use std::alloc::Global;
use std::marker::Brand;
use std::process::Abort;
use std::sync::ledger::{Blank, Ledger};
use std::test::Fail;

/// The marks 64, 70 below it, and 76 and 82 below 70.
fn four_marks(alloc: Global) -> Result<MarkTree, NoMemory>
    ensures { IfOk result (λ t. t.marks ≡ initial_mark (tag 64) ∷ child_mark (tag 70) (tag 64) []
        ∷ child_mark (tag 76) (tag 70) [] ∷ child_mark (tag 82) (tag 70) [] ∷ []) }
{
    let mut tree = MarkTree::begin(alloc, Tag(64))?;
    tree.reserve()?;
    tree.add(Tag(70), Tag(64), Delta::empty(alloc));
    tree.reserve()?;
    tree.add(Tag(76), Tag(70), Delta::empty(alloc));
    tree.reserve()?;
    tree.add(Tag(82), Tag(70), Delta::empty(alloc));
    Ok(tree)
}

fn path<L: Ledger, R: Abort>(rt: &R, alloc: Global, blank: Blank) -> Result<(), Fail>
    requires name { blank.name ≡ L.name }
    requires parts { blank.parts ≡ L.parts }
    requires some { 0 < blank.parts }
{
    let mut steps = Steps::<L>::new(blank);
    let mut tree = four_marks(alloc)?;
    assert!(rt; tree.live(Tag(76)));
    assert!(rt; tree.live(Tag(82)));
    let path = tree.path(alloc, Tag(76), Tag(82))?;
    assert_eq!(rt; path.up(), [Tag(76)].as_slice());
    assert_eq!(rt; path.down(), [Tag(82)].as_slice());
    assert_eq!(rt; tree.parent(Tag(70)), Some(Tag(64)));
    tree.remove(Tag(70), &mut steps)?;
    assert_eq!(rt; tree.parent(Tag(76)), Some(Tag(64)));
    assert_eq!(rt; tree.parent(Tag(82)), Some(Tag(64)));
    assert!(rt; !tree.live(Tag(70)));
    assert!(rt; tree.ever(Tag(70)));
    assert_eq!(rt; tree.delta(Tag(76)).len(), 0);
    assert_eq!(rt; tree.live_len(), 3);
    assert_eq!(rt; tree.live_at(1), Tag(76));
    Ok(())
}

#[test]
fn a_path_and_a_removal_with_two_children(rt: HostRuntime) -> Result<(), Fail> {
    path::<Brand, HostRuntime>(&rt, rt.alloc(), Blank::new(1))
}
