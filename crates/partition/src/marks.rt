//! Marks of the tree by their tags, and lists of them.
ghost use Rattle.std.specs.Prelude.{◌≡◌, ◌≤◌, ◌++◌, length, IfOk, IfErr, Ok, Err, Some};
ghost use Rattle.pk_model.specs.Step.{live_rows, mark_among};
ghost use Rattle.pmark_tree.specs.Marks.{parent_in};
ghost use Rattle.pmark_tree.specs.Maps.{whole_marks};
ghost use Rattle.pmark_tree.specs.Trees.{IsEdge, IsTree};
ghost use Rattle.partition.specs.Goes.{IsFound, parent_among};

use entity_store::Store;
use pk_base::{MarkListBuilder, MarkRow, Refusal, Tag};
use pmark_tree::MarkTree;

/// Whether there is a live mark of this tag, or why there is none.
pub(crate) fn check_live(store: &Store, tree: &MarkTree, m: Tag) -> Result<(), Refusal>
    ensures found { IfOk result (λ _. IsFound store.now.state.blocks tree.now.marks m) }
    ensures tree { IfOk result (λ _. IsTree tree.now.marks) }
    ensures refused { IfErr result (λ e.
        mark_among store.now.state.blocks (whole_marks tree.now.marks) m ≡ Err e) }
{
    if !store.owns(m) {
        return Err(Refusal::NotOurs(m));
    }
    if !tree.ever(m) {
        return Err(Refusal::NotAMark(m));
    }
    if !tree.live(m) {
        return Err(Refusal::MarkDeleted(m));
    }
    Ok(())
}

/// The parent of the live mark of this tag; or why there is no such mark, or no parent.
pub(crate) fn parent_of(store: &Store, tree: &MarkTree, m: Tag) -> Result<Tag, Refusal>
    ensures found { IfOk result (λ _. IsFound store.now.state.blocks tree.now.marks m) }
    ensures tree { IfOk result (λ _. IsTree tree.now.marks) }
    ensures parent { IfOk result (λ p. parent_in tree.now.marks m ≡ Some p) }
    ensures edge { IfOk result (λ p. IsEdge tree.now.marks p m) }
    ensures refused { IfErr result (λ e.
        parent_among store.now.state.blocks (whole_marks tree.now.marks) m ≡ Err e) }
{
    check_live(store, tree, m)?;
    match tree.parent(m) {
        Some(parent) => Ok(parent),
        None => Err(Refusal::InitialMark),
    }
}

/// Lists the live marks, in the order in which they were made.
pub(crate) fn list_live(tree: &MarkTree, rows: &mut MarkListBuilder)
    requires tree { IsTree tree.now.marks }
    requires spare { length (live_rows (whole_marks tree.now.marks)) ≤ rows.old.spare }
    ensures { rows.new.items ≡ rows.old.items ++ live_rows (whole_marks tree.now.marks) }
{
    for i in 0..tree.live_len() {
        let tag = tree.live_at(i);
        rows.push(MarkRow {
            tag,
            parent: tree.parent(tag),
        });
    }
}
