// Trees, and the steps of a merge: both segment lists are walked once, by two cursors.
ghost use Rattle.std.specs.Prelude.{◌≡◌, not, ◌+◌, ◌/◌, ◌^◌, ◌<◌, length, drop};
ghost use Rattle.keys.specs.Key.{order_of};
ghost use Rattle.records.specs.Row.{view_at};
ghost use Rattle.records.specs.Decode.{bytes_in};
ghost use Rattle.merge.specs.Rows.{absorbed_row, left_of, merged_tree};
ghost use Rattle.merge.specs.Steps.{rows_in, step_by, step_of, writer_taken, compactor_taken, new_row, merged_row, writer_keep, empty_row, filled_keep, compactor_keep, keep_by, next_of};

use crate::{Cursors, MergeStep, Next, Side};
use ids::marks;
use keys::{compare, part};
use records::{Place, SegmentRow, TreeRow, segment_at, view_at};
use std::cmp::Ordering;
use tables::{Window, held};

// Whether neither watermark of the compactor's tree `c` names view `i`.
fn is_left(views: &[u64], i: usize, c: TreeRow) -> bool
    requires { i < length views.now / 16 }
    ensures { result ≡ not (absorbed_row c (view_at views.now i)) }
{
    let v = view_at(views, i);
    if marks(c.view, v.id) {
        return false;
    }
    !marks(c.sst, v.sst)
}

// How many views of the writer's L0 come before the first that the compactor has absorbed.
fn count_left(views: &[u64], l0: Window, c: TreeRow) -> usize
    ensures { result ≡ left_of views.now l0 c }
{
    let n = held(l0, views.len() / 16);
    for k in 0..n {
        if !is_left(views, l0.first + k, c) {
            return k;
        }
    }
    n
}

// The writer's L0 without what the compactor has absorbed; runs and watermarks are the compactor's.
pub fn merge_writer_and_compactor(views: &[u64], w: TreeRow, c: TreeRow) -> TreeRow
    ensures { result ≡ merged_tree views.now w c }
{
    let l0 = w.l0;
    let count = count_left(views, l0, c);
    TreeRow {
        view: c.view,
        sst: c.sst,
        l0: Window {
            first: l0.first,
            count,
        },
        compacted: c.compacted,
    }
}

// ---- steps: both segment lists are walked once, by two cursors

fn step_by(pool: &[u8], w: SegmentRow, c: SegmentRow) -> MergeStep
    ensures { result ≡ step_by (order_of (bytes_in pool.now w.prefix) (bytes_in pool.now c.prefix)) w c }
{
    let a = w.prefix;
    let b = c.prefix;
    match compare(part(pool, a.at, a.len), part(pool, b.at, b.len)) {
        Ordering::Less => MergeStep::WriterOnly(w),
        Ordering::Equal => MergeStep::Both(w, c),
        Ordering::Greater => MergeStep::CompactorOnly(c),
    }
}

// The next step from row `i` of the writer's segments and row `j` of the compactor's.
pub fn merge_step(
    segments: &[u64],
    pool: &[u8],
    w: Window,
    c: Window,
    i: usize,
    j: usize,
) -> MergeStep
    ensures { result ≡ step_of pool.now (drop i (rows_in segments.now w)) (drop j (rows_in segments.now c)) }
{
    let n = held(w, segments.len() / 12);
    let m = held(c, segments.len() / 12);
    if i < n {
        let a = segment_at(segments, w.first + i);
        if j < m {
            let b = segment_at(segments, c.first + j);
            return step_by(pool, a, b);
        }
        return MergeStep::WriterOnly(a);
    }
    if j < m {
        let b = segment_at(segments, c.first + j);
        return MergeStep::CompactorOnly(b);
    }
    MergeStep::End
}

// The cursors past a step.
pub fn advance(step: MergeStep, i: usize, j: usize) -> Cursors
    requires { (i + 1 < 2 ^ 64) × (j + 1 < 2 ^ 64) }
    ensures { result ≡ record { i = i + writer_taken step; j = j + compactor_taken step } }
{
    match step {
        MergeStep::End => Cursors { i, j },
        MergeStep::WriterOnly(_) => Cursors { i: i + 1, j },
        MergeStep::CompactorOnly(_) => Cursors { i, j: j + 1 },
        MergeStep::Both(_, _) => Cursors { i: i + 1, j: j + 1 },
    }
}

// The tree that stands for an absent one.
fn new_tree() -> TreeRow
    ensures { result ≡ new_row }
{
    TreeRow {
        view: None,
        sst: None,
        l0: Window { first: 0, count: 0 },
        compacted: Window { first: 0, count: 0 },
    }
}

fn merged_row(views: &[u64], prefix: Place, w: TreeRow, c: TreeRow) -> SegmentRow
    ensures { result ≡ merged_row views.now prefix w c }
{
    let tree = merge_writer_and_compactor(views, w, c);
    SegmentRow { prefix, tree }
}

// Merge from writer: every writer's segment, empty or not, and no other.
fn writer_keep(views: &[u64], step: MergeStep) -> Option<SegmentRow>
    ensures { result ≡ writer_keep views.now step }
{
    match step {
        MergeStep::End => None,
        MergeStep::WriterOnly(w) => {
            let p = w.prefix;
            let t = w.tree;
            Some(merged_row(views, p, t, new_tree()))
        }
        MergeStep::CompactorOnly(_) => None,
        MergeStep::Both(w, c) => {
            let p = w.prefix;
            let t = w.tree;
            let u = c.tree;
            Some(merged_row(views, p, t, u))
        }
    }
}

// Whether the tree has no L0 and no run.
pub fn is_empty_tree(views: &[u64], runs: &[u64], t: TreeRow) -> bool
    ensures { result ≡ empty_row views.now runs.now t }
{
    if held(t.l0, views.len() / 16) == 0 {
        return held(t.compacted, runs.len() / 3) == 0;
    }
    false
}

fn filled_keep(views: &[u64], runs: &[u64], s: SegmentRow) -> Option<SegmentRow>
    ensures { result ≡ filled_keep views.now runs.now s }
{
    if is_empty_tree(views, runs, s.tree) {
        return None;
    }
    Some(s)
}

// Merge from compactor: what either side has, if the result is not empty.
fn compactor_keep(views: &[u64], runs: &[u64], step: MergeStep) -> Option<SegmentRow>
    ensures { result ≡ compactor_keep views.now runs.now step }
{
    match step {
        MergeStep::End => None,
        MergeStep::WriterOnly(w) => {
            let p = w.prefix;
            let t = w.tree;
            filled_keep(views, runs, merged_row(views, p, t, new_tree()))
        }
        MergeStep::CompactorOnly(c) => {
            let p = c.prefix;
            let u = c.tree;
            filled_keep(views, runs, merged_row(views, p, new_tree(), u))
        }
        MergeStep::Both(w, c) => {
            let p = w.prefix;
            let t = w.tree;
            let u = c.tree;
            filled_keep(views, runs, merged_row(views, p, t, u))
        }
    }
}

fn keep_by(side: Side, views: &[u64], runs: &[u64], step: MergeStep) -> Option<SegmentRow>
    ensures { result ≡ keep_by side views.now runs.now step }
{
    match side {
        Side::Writer => writer_keep(views, step),
        Side::Compactor => compactor_keep(views, runs, step),
    }
}

pub fn next_kept(
    side: Side,
    segments: &[u64],
    views: &[u64],
    runs: &[u64],
    pool: &[u8],
    w: Window,
    c: Window,
    i: usize,
    j: usize,
) -> Next
    requires { (i + 1 < 2 ^ 64) × (j + 1 < 2 ^ 64) }
    ensures { result ≡ next_of side segments.now views.now runs.now pool.now w c i j }
{
    let step = merge_step(segments, pool, w, c, i, j);
    let keep = keep_by(side, views, runs, step);
    let past = advance(step, i, j);
    Next {
        keep,
        i: past.i,
        j: past.j,
    }
}
