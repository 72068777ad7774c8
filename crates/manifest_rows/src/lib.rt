// Rows of a manifest over its MessagePack, in lent working tables: the input itself is the pool. Rows past the end of a table are
// counted and not stored. Long chains of reads are cut in two, since a function's check costs its statements times its locals.
#![tactic(auto)]

mod borrows_filled;
mod heads_read;
mod views_filled;

ghost use Rattle.std.specs.Prelude.{◌+◌, ◌≤◌, ◌<◌};
ghost use Rattle.manifest_values.specs.Read.{many, tree_at, segment_at, borrows_at, manifest_at};
ghost use Rattle.manifest_rows.specs.Stored.{Steps, two, Moves, BorrowStep, TreeMoves, three, SegmentMoves, SegmentStep, start, lent, ManifestFilled};
ghost use Rattle.manifest_rows.specs.Steps.{first_at, FirstMoves, second_at, SecondMoves};

use borrows_filled::fill_borrows;
use heads_read::tree_head;
use ids::{SstId, Uuid, ViewId};
use records::{Fill, ManifestRow, Place, SegmentRow, TreeRow};
use tables::Window;
use views_filled::{fill_runs, fill_views, store};

// Where the next rows go: of the outer table (runs, borrows) and of the inner one (views, ids).
#[derive(Clone, Copy)]
pub struct Cursor {
    pub outer: usize,
    pub inner: usize,
}

// A run before its views: how many elements and how many views it has.
#[derive(Clone, Copy)]
pub struct RunHead {
    pub parts: u64,
    pub id: u64,
    pub views: u64,
}

// A borrow before its ids.
#[derive(Clone, Copy)]
pub struct BorrowHead {
    pub parts: u64,
    pub path: Place,
    pub source: Uuid,
    pub fin: Option<Uuid>,
    pub ids: u64,
}

// A tree before the views of its L0.
#[derive(Clone, Copy)]
pub struct TreeHead {
    pub parts: u64,
    pub view: Option<ViewId>,
    pub sst: Option<SstId>,
    pub views: u64,
}

// Reads a tree: its L0, then run by run.
#[tactic(auto, using(crate::proofs::Trees::tree_reads))]
fn fill_tree(
    s: &[u8],
    at: usize,
    runs: &mut [u64],
    views: &mut [u64],
    c: Cursor,
) -> Result<(TreeRow, usize, Cursor), usize>
    requires { (c.outer ≤ at) × (c.inner ≤ at) }
    ensures { TreeMoves s.now (tree_at s.now at) (two runs.old views.old c) (λ d. two runs.new views.new d) result }
{
    let (h, p0) = tree_head(s, at)?;
    let p1 = fill_views(s, p0, h.views, views, c.inner)?;
    let (m, p2) = msgpack::list_at(s, p1)?;
    let count = h.views as usize;
    let from = Cursor {
        outer: c.outer,
        inner: c.inner + count,
    };
    let (p3, d) = fill_runs(s, p2, m, runs, views, from)?;
    let e = msgpack::rest_at(s, p3, h.parts, 4)?;
    let row = TreeRow {
        view: h.view,
        sst: h.sst,
        l0: Window {
            first: c.inner,
            count,
        },
        compacted: Window {
            first: c.outer,
            count: m as usize,
        },
    };
    Ok((row, e, d))
}

// Reads a segment: its tree's rows, then its own.
#[tactic(auto, using(crate::proofs::Trees::segment_reads))]
fn fill_segment(
    s: &[u8],
    at: usize,
    segments: &mut [u64],
    i: usize,
    runs: &mut [u64],
    views: &mut [u64],
    c: Cursor,
) -> Result<(usize, Cursor), usize>
    requires { (i ≤ at) × ((c.outer ≤ at) × (c.inner ≤ at)) }
    ensures { SegmentMoves (SegmentStep s.now) (segment_at s.now at) (three segments.old i runs.old views.old c) (λ d. three segments.new (i + 1) runs.new views.new d) result }
{
    let (n, p0) = msgpack::group_at(s, at, 2)?;
    let (prefix, p1) = manifest_values::place_row(s, p0)?;
    let (tree, p2, d) = fill_tree(s, p1, runs, views, c)?;
    let e = msgpack::rest_at(s, p2, n, 2)?;
    let words = records::segment_words(SegmentRow { prefix, tree });
    store(&words, i, segments);
    Ok((e, d))
}

// Reads n segments in a row, from the first row on.
#[tactic(auto, using(crate::proofs::Turns::turns))]
fn fill_segments(
    s: &[u8],
    at: usize,
    n: u64,
    segments: &mut [u64],
    runs: &mut [u64],
    views: &mut [u64],
    c: Cursor,
) -> Result<(usize, Cursor), usize>
    requires { (c.outer ≤ at) × (c.inner ≤ at) }
    ensures { SegmentMoves (Steps (SegmentStep s.now)) (many (segment_at s.now) n at) (three segments.old 0 runs.old views.old c) (λ d. three segments.new n runs.new views.new d) result }
{
    let mut p = at;
    let mut d = c;
    for k in 0..n {
        (p, d) = fill_segment(s, p, segments, k as usize, runs, views, d)?;
    }
    Ok((p, d))
}

// A manifest up to its segments: how many elements it has, and how many rows its trees.
#[derive(Clone, Copy)]
pub struct First {
    pub parts: u64,
    pub initialized: bool,
    pub tree: TreeRow,
    pub segments: usize,
    pub trees: Cursor,
}

// Reads a manifest up to its segments.
#[tactic(auto, using(crate::proofs::Manifests::first_reads), unfolding(crate::specs::Steps::first_at, manifest_values::specs::Read::trees_at))]
fn fill_first(
    s: &[u8],
    segments: &mut [u64],
    runs: &mut [u64],
    views: &mut [u64],
) -> Result<(First, usize), usize>
    ensures { FirstMoves s.now (first_at s.now 0) (three segments.old 0 runs.old views.old start) (λ k d. three segments.new k runs.new views.new d) result }
{
    let (parts, p0) = msgpack::group_at(s, 0, 12)?;
    let (initialized, p1) = msgpack::flag_at(s, p0)?;
    let (tree, p2, c) = fill_tree(s, p1, runs, views, Cursor { outer: 0, inner: 0 })?;
    let (k, p3) = msgpack::list_at(s, p2)?;
    let (p4, d) = fill_segments(s, p3, k, segments, runs, views, c)?;
    let first = First {
        parts,
        initialized,
        tree,
        segments: k as usize,
        trees: d,
    };
    Ok((first, p4))
}

// Reads the list of borrows.
#[tactic(auto, using(crate::proofs::Turns::moves_not), unfolding(manifest_values::specs::Read::borrows_at))]
fn fill_lenders(
    s: &[u8],
    at: usize,
    borrows: &mut [u64],
    ids: &mut [u64],
) -> Result<(usize, Cursor), usize>
    ensures { Moves (Steps (BorrowStep s.now)) (borrows_at s.now at) (two borrows.old ids.old start) (λ d. two borrows.new ids.new d) result }
{
    let (n, p0) = msgpack::list_at(s, at)?;
    fill_borrows(s, p0, n, borrows, ids, Cursor { outer: 0, inner: 0 })
}

// Reads a manifest from its extractor's name on, where f was read before.
#[tactic(auto, using(crate::proofs::Manifests::second_reads))]
fn fill_second(
    s: &[u8],
    at: usize,
    f: First,
    borrows: &mut [u64],
    ids: &mut [u64],
) -> Result<(ManifestRow, Fill, usize), usize>
    ensures { SecondMoves s.now f (second_at s.now f.parts at) (two borrows.old ids.old start) (λ d. two borrows.new ids.new d) result }
{
    let (name, p0) = manifest_values::optional_place_row(s, at)?;
    let (x, p1) = manifest_values::numbers_row(s, p0)?;
    let (p2, d) = fill_lenders(s, p1, borrows, ids)?;
    let (y, p3) = manifest_values::epochs_row(s, p2)?;
    let e = msgpack::rest_at(s, p3, f.parts, 12)?;
    let row = ManifestRow {
        initialized: f.initialized,
        tree: f.tree,
        segments: Window {
            first: 0,
            count: f.segments,
        },
        segment_extractor_name: name,
        next_wal_sst_id: x.next_wal_sst_id,
        replay_after_wal_id: x.replay_after_wal_id,
        last_l0_clock_tick: x.last_l0_clock_tick,
        last_l0_seq: x.last_l0_seq,
        recent_snapshot_min_seq: x.recent_snapshot_min_seq,
        external_dbs: Window {
            first: 0,
            count: d.outer,
        },
        writer_epoch: y.writer,
        compactor_epoch: y.compactor,
    };
    let fill = Fill {
        segments: f.segments,
        views: f.trees.inner,
        runs: f.trees.outer,
        borrows: d.outer,
        ids: d.inner,
        bytes: 0,
    };
    Ok((row, fill, e))
}

// Reads a manifest: its row over the input, how many rows it has in each table, and the place after it. Rows past the end of a working table are
// counted and not stored.
// inner
#[tactic(auto, using(crate::proofs::Manifests::manifest_reads))]
pub fn fill_manifest(
    s: &[u8],
    segments: &mut [u64],
    views: &mut [u64],
    runs: &mut [u64],
    borrows: &mut [u64],
    ids: &mut [u64],
) -> Result<(ManifestRow, Fill, usize), usize>
    ensures { ManifestFilled (manifest_at s.now 0) (lent segments.old views.old runs.old borrows.old ids.old s.now) (lent segments.new views.new runs.new borrows.new ids.new s.now) result }
{
    let (f, p) = fill_first(s, segments, runs, views)?;
    fill_second(s, p, f, borrows, ids)
}
