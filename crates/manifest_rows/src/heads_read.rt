// What stands before the lists of a run, a borrow and a tree: values that need no table.
ghost use Rattle.std.specs.Prelude.{◌≡◌};
ghost use Rattle.manifest_rows.specs.Steps.{run_head_at, borrow_head_at, tree_head_at};
ghost use Rattle.manifest_values.specs.Rows.{got};

use crate::{BorrowHead, RunHead, TreeHead};
use ids::Uuid;
use manifest_values::Got;

// Reads a run up to its views.
#[tactic(auto, unfolding(crate::specs::Steps::run_head_at))]
pub fn run_head(s: &[u8], at: usize) -> Got<RunHead>
    ensures { got result ≡ run_head_at s.now at }
{
    let (parts, p0) = msgpack::group_at(s, at, 2)?;
    let (id, p1) = msgpack::uint_at(s, p0, 0xffff_ffff)?;
    let (views, p2) = msgpack::list_at(s, p1)?;
    Ok((RunHead { parts, id, views }, p2))
}

// Reads a borrow up to its ids.
#[tactic(auto, unfolding(crate::specs::Steps::borrow_head_at))]
pub fn borrow_head(s: &[u8], at: usize) -> Got<BorrowHead>
    ensures { got result ≡ borrow_head_at s.now at }
{
    let (parts, p0) = msgpack::group_at(s, at, 4)?;
    let (path, p1) = manifest_values::place_row(s, p0)?;
    let (hi, lo, p2) = msgpack::id_at(s, p1)?;
    let (fin, p3) = manifest_values::mark_row(s, p2)?;
    let (ids, p4) = msgpack::list_at(s, p3)?;
    let head = BorrowHead {
        parts,
        path,
        source: Uuid(hi, lo),
        fin,
        ids,
    };
    Ok((head, p4))
}

// Reads a tree up to the views of its L0.
#[tactic(auto, unfolding(crate::specs::Steps::tree_head_at))]
pub fn tree_head(s: &[u8], at: usize) -> Got<TreeHead>
    ensures { got result ≡ tree_head_at s.now at }
{
    let (parts, p0) = msgpack::group_at(s, at, 4)?;
    let (view, p1) = manifest_values::mark_row(s, p0)?;
    let (sst, p2) = manifest_values::mark_row(s, p1)?;
    let (views, p3) = msgpack::list_at(s, p2)?;
    let head = TreeHead {
        parts,
        view,
        sst,
        views,
    };
    Ok((head, p3))
}
