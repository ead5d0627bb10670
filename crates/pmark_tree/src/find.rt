//! A mark is found by its tag.
ghost use Rattle.std.specs.Prelude.{◌≡◌, ◌<◌, ◌≤◌, IfNone, IfSome, IsSome, None, Some, length, map, option_copied};
ghost use Rattle.pk_model.specs.Tags.{TagsAscend};
ghost use Rattle.pmark_tree.specs.declared.mark.TreeMark.{TreeMark};
ghost use Rattle.pmark_tree.specs.Marks.{mark_at};
ghost use Rattle.pmark_tree.specs.Rows.{row_at};

use crate::TreeMark;
use pk_base::Tag;

/// The row of the mark with a tag.
pub(crate) fn row_of(rows: &[TreeMark], t: Tag) -> Option<usize>
    requires { TagsAscend (map (λ (k : TreeMark). k.tag) rows.now) }
    ensures within { IfSome result (λ i. i < length rows.now) }
    ensures tag { IfSome result (λ i. (row_at rows.now i).tag ≡ t) }
    ensures found { IfSome result (λ i. mark_at rows.now t ≡ Some (row_at rows.now i)) }
    ensures none { IfNone result (mark_at rows.now t ≡ None) }
{
    match rows.binary_search_by_key(&t.0, |row| row.tag.0) {
        Ok(row) => Some(row),
        Err(_) => None,
    }
}

/// The mark with a tag, live or not.
pub(crate) fn find_mark(rows: &[TreeMark], t: Tag) -> Option<&TreeMark>
    requires { TagsAscend (map (λ (k : TreeMark). k.tag) rows.now) }
    ensures { option_copied result ≡ mark_at rows.now t }
{
    let row = row_of(rows, t)?;
    Some(&rows[row])
}

/// The slot of a mark that is there: its row.
pub(crate) fn slot_in(rows: &[TreeMark], t: Tag) -> u32
    requires ascend { TagsAscend (map (λ (k : TreeMark). k.tag) rows.now) }
    requires there { IsSome (mark_at rows.now t) }
    ensures within { result < length rows.now }
    ensures tag { (row_at rows.now result).tag ≡ t }
{
    let Some(row) = row_of(rows, t) else {
        unreachable!()
    };
    slot_of(row, t.0)
}

/// The slot of a row, whose number is at most that of its mark's tag.
pub(crate) fn slot_of(row: usize, most: u32) -> u32
    requires { row ≤ most }
    ensures { result ≡ row }
{
    row as u32
}
