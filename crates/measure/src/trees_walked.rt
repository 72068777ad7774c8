// Runs, trees and segments, walked.
ghost use Rattle.std.specs.Prelude.{◌≡◌, true, ◌+◌, ◌*◌, ◌/◌, ◌<◌, length};
ghost use Rattle.measure.specs.Placed.{opened};
ghost use Rattle.measure.specs.Walk.{run_walk, runs_walk, tree_walk, segment_row_walk, segment_walk, segments_walk};

use crate::views_walked::{key_step, views_walk, window_step};
use records::{Fill, Limits, SegmentRow, TreeRow, run_at, segment_at};
use tables::Window;

fn run_step(lim: Limits, views: &[u64], runs: &[u64], n: usize, i: usize, c: Fill) -> Option<Fill>
    requires { i < length runs.now / 3 }
    ensures { result ≡ run_walk lim views.now runs.now n i c }
{
    let r = run_at(runs, i);
    if 4294967296 <= r.id {
        return None;
    }
    views_walk(lim, views, n, r.views, c)
}

#[tactic(auto, using(crate::proofs::Walks::rows), unfolding(crate::specs::Walk::runs_walk))]
fn runs_walk(lim: Limits, views: &[u64], runs: &[u64], n: usize, w: Window, c: Fill) -> Option<Fill>
    ensures { result ≡ runs_walk lim views.now runs.now n w c }
{
    let more = Fill {
        segments: 0,
        views: 0,
        runs: w.count,
        borrows: 0,
        ids: 0,
        bytes: 0,
    };
    let mut d = window_step(lim.fill, runs.len() / 3, w, more, c)?;
    for k in 0..w.count {
        d = run_step(lim, views, runs, n, w.first + k, d)?;
    }
    Some(d)
}

#[tactic(auto, using(crate::proofs::Walks::thens), unfolding(crate::specs::Walk::tree_walk))]
pub fn tree_walk(
    lim: Limits,
    views: &[u64],
    runs: &[u64],
    n: usize,
    t: TreeRow,
    c: Fill,
) -> Option<Fill>
    ensures { result ≡ tree_walk lim views.now runs.now n t c }
{
    let d = views_walk(lim, views, n, t.l0, c)?;
    runs_walk(lim, views, runs, n, t.compacted, d)
}

// Whether a code of something optional is one of the two.
pub fn is_code(x: u64) -> bool
    ensures { result ≡ opened x true }
{
    x <= 1
}

// A segment's prefix and tree, counted on from `c`.
// inner
#[tactic(auto, using(crate::proofs::Walks::thens), unfolding(crate::specs::Walk::segment_row_walk))]
pub fn segment_row(
    lim: Limits,
    views: &[u64],
    runs: &[u64],
    n: usize,
    r: SegmentRow,
    c: Fill,
) -> Option<Fill>
    ensures { result ≡ segment_row_walk lim views.now runs.now n r c }
{
    let d = key_step(lim.prefix, lim.fill, n, r.prefix, c)?;
    tree_walk(lim, views, runs, n, r.tree, d)
}

fn segment_step(
    lim: Limits,
    views: &[u64],
    runs: &[u64],
    segments: &[u64],
    n: usize,
    i: usize,
    c: Fill,
) -> Option<Fill>
    requires { i < length segments.now / 12 }
    ensures { result ≡ segment_walk lim views.now runs.now segments.now n i c }
{
    let b = i * 12;
    if !is_code(segments[b + 2]) {
        return None;
    }
    if !is_code(segments[b + 5]) {
        return None;
    }
    let r = segment_at(segments, i);
    segment_row(lim, views, runs, n, r, c)
}

#[tactic(auto, using(crate::proofs::Walks::rows), unfolding(crate::specs::Walk::segments_walk))]
pub fn segments_walk(
    lim: Limits,
    views: &[u64],
    runs: &[u64],
    segments: &[u64],
    n: usize,
    w: Window,
    c: Fill,
) -> Option<Fill>
    ensures { result ≡ segments_walk lim views.now runs.now segments.now n w c }
{
    let more = Fill {
        segments: w.count,
        views: 0,
        runs: 0,
        borrows: 0,
        ids: 0,
        bytes: 0,
    };
    let mut d = window_step(lim.fill, segments.len() / 12, w, more, c)?;
    for k in 0..w.count {
        d = segment_step(lim, views, runs, segments, n, w.first + k, d)?;
    }
    Some(d)
}
