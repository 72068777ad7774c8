// The result, measured and laid out.
ghost use Rattle.std.specs.Prelude.{◌≡◌, true, ◌+◌, ◌*◌, ◌/◌, ◌≤◌, ◌<◌, length};
ghost use Rattle.keys.specs.Key.{less_of};
ghost use Rattle.tables.specs.Layout.{write, over, joined};
ghost use Rattle.records.specs.Decode.{segments_in};
ghost use Rattle.records.specs.Fill.{empty, plus, sum, segment_fill};
ghost use Rattle.records.specs.Layout.{segments_laid, segments_runs_laid, segments_views_laid, segment_bytes};
ghost use Rattle.measure.specs.Tests.{all_of, chain};
ghost use Rattle.segments.specs.Prefixes.{prefixes_in};
ghost use Rattle.merge.specs.Steps.{rows_in, keep_in, merged_from, row_kept, keep_walk, list_measured};

use crate::Side;
use crate::merge_steps::next_kept;
use emit::put_segment;
use measure::{add, segment_row};
use records::{Fill, Limits, SegmentRow};
use tables::{Window, held};

// What is kept, counted on from `c`, in a pool of `n` bytes.
fn fill_kept(
    lim: Limits,
    views: &[u64],
    runs: &[u64],
    n: usize,
    keep: Option<SegmentRow>,
    c: Fill,
) -> Option<Fill>
    ensures { result ≡ keep_walk lim views.now runs.now n keep c }
{
    match keep {
        None => Some(c),
        Some(s) => {
            let one = Fill {
                segments: 1,
                views: 0,
                runs: 0,
                borrows: 0,
                ids: 0,
                bytes: 0,
            };
            let d = add(lim.fill, c, one)?;
            segment_row(lim, views, runs, n, s, d)
        }
    }
}

// What the merged segments fill, where that is within the limits.
pub fn measure_merged(
    side: Side,
    lim: Limits,
    segments: &[u64],
    runs: &[u64],
    views: &[u64],
    pool: &[u8],
    w: Window,
    c: Window,
) -> Option<Fill>
    requires w_value { (chain less_of (prefixes_in segments.now pool.now w) ≡ true) × (chain less_of (prefixes_in segments.now pool.now c) ≡ true) }
    requires w_value_2 { (all_of (row_kept lim views.now runs.now pool.now) (rows_in segments.now w) ≡ true) × (all_of (row_kept lim views.now runs.now pool.now) (rows_in segments.now c) ≡ true) }
    ensures { result ≡ list_measured lim (merged_from side (segments_in segments.now runs.now views.now pool.now w) (segments_in segments.now runs.now views.now pool.now c)) }
{
    let n = held(w, segments.len() / 12);
    let m = held(c, segments.len() / 12);
    let end = n + m;
    let mut to = Fill {
        segments: 0,
        views: 0,
        runs: 0,
        borrows: 0,
        ids: 0,
        bytes: 0,
    };
    let mut i = 0;
    let mut j = 0;
    // A `while`: two places move, one of them or both at each step, and there is no single counter.
    while i + j < end {
        let s = next_kept(side, segments, views, runs, pool, w, c, i, j);
        let keep = s.keep;
        to = fill_kept(lim, views, runs, pool.len(), keep, to)?;
        i = s.i;
        j = s.j;
    }
    Some(to)
}

// ---- the result, laid out

// Appends the segment that is kept, if one is.
fn put_kept(
    keep: Option<SegmentRow>,
    runs: &[u64],
    views: &[u64],
    pool: &[u8],
    out_segments: &mut [u64],
    out_runs: &mut [u64],
    out_views: &mut [u64],
    out_pool: &mut [u8],
    c: Fill,
) -> Fill
    requires keep_in_bounds { (c.segments + (sum segment_fill (keep_in runs.now views.now pool.now keep)).segments) * 12 ≤ length out_segments.old }
    requires keep_in_bounds_2 { (c.runs + (sum segment_fill (keep_in runs.now views.now pool.now keep)).runs) * 3 ≤ length out_runs.old }
    requires keep_in_bounds_3 { (c.views + (sum segment_fill (keep_in runs.now views.now pool.now keep)).views) * 16 ≤ length out_views.old }
    requires keep_in_bounds_4 { c.bytes + (sum segment_fill (keep_in runs.now views.now pool.now keep)).bytes ≤ length out_pool.old }
    ensures value { result ≡ plus c (sum segment_fill (keep_in runs.now views.now pool.now keep)) }
    ensures out_segments_after { out_segments.new ≡ write out_segments.old (c.segments * 12) (segments_laid c (keep_in runs.now views.now pool.now keep)) }
    ensures out_runs_after { out_runs.new ≡ write out_runs.old (c.runs * 3) (segments_runs_laid c (keep_in runs.now views.now pool.now keep)) }
    ensures out_views_after { out_views.new ≡ write out_views.old (c.views * 16) (segments_views_laid c (keep_in runs.now views.now pool.now keep)) }
    ensures out_pool_after { out_pool.new ≡ write out_pool.old c.bytes (joined segment_bytes (keep_in runs.now views.now pool.now keep)) }
{
    match keep {
        None => c,
        Some(s) => put_segment(
            s,
            runs,
            views,
            pool,
            out_segments,
            out_runs,
            out_views,
            out_pool,
            c,
        ),
    }
}

// Lays the merged segments out at the front of the tables.
pub fn put_merged(
    side: Side,
    segments: &[u64],
    runs: &[u64],
    views: &[u64],
    pool: &[u8],
    w: Window,
    c: Window,
    out_segments: &mut [u64],
    out_runs: &mut [u64],
    out_views: &mut [u64],
    out_pool: &mut [u8],
) -> Fill
    requires w_value { (chain less_of (prefixes_in segments.now pool.now w) ≡ true) × (chain less_of (prefixes_in segments.now pool.now c) ≡ true) }
    requires c_in_bounds { (sum segment_fill (merged_from side (segments_in segments.now runs.now views.now pool.now w) (segments_in segments.now runs.now views.now pool.now c))).segments * 12 ≤ length out_segments.old }
    requires c_in_bounds_2 { (sum segment_fill (merged_from side (segments_in segments.now runs.now views.now pool.now w) (segments_in segments.now runs.now views.now pool.now c))).runs * 3 ≤ length out_runs.old }
    requires c_in_bounds_3 { (sum segment_fill (merged_from side (segments_in segments.now runs.now views.now pool.now w) (segments_in segments.now runs.now views.now pool.now c))).views * 16 ≤ length out_views.old }
    requires c_in_bounds_4 { (sum segment_fill (merged_from side (segments_in segments.now runs.now views.now pool.now w) (segments_in segments.now runs.now views.now pool.now c))).bytes ≤ length out_pool.old }
    ensures value { result ≡ sum segment_fill (merged_from side (segments_in segments.now runs.now views.now pool.now w) (segments_in segments.now runs.now views.now pool.now c)) }
    ensures out_segments_after { out_segments.new ≡ over out_segments.old (segments_laid empty (merged_from side (segments_in segments.now runs.now views.now pool.now w) (segments_in segments.now runs.now views.now pool.now c))) }
    ensures out_runs_after { out_runs.new ≡ over out_runs.old (segments_runs_laid empty (merged_from side (segments_in segments.now runs.now views.now pool.now w) (segments_in segments.now runs.now views.now pool.now c))) }
    ensures out_views_after { out_views.new ≡ over out_views.old (segments_views_laid empty (merged_from side (segments_in segments.now runs.now views.now pool.now w) (segments_in segments.now runs.now views.now pool.now c))) }
    ensures out_pool_after { out_pool.new ≡ over out_pool.old (joined segment_bytes (merged_from side (segments_in segments.now runs.now views.now pool.now w) (segments_in segments.now runs.now views.now pool.now c))) }
{
    let n = held(w, segments.len() / 12);
    let m = held(c, segments.len() / 12);
    let end = n + m;
    let mut to = Fill {
        segments: 0,
        views: 0,
        runs: 0,
        borrows: 0,
        ids: 0,
        bytes: 0,
    };
    let mut i = 0;
    let mut j = 0;
    // A `while`: two places move, one of them or both at each step, and there is no single counter.
    while i + j < end {
        let s = next_kept(side, segments, views, runs, pool, w, c, i, j);
        let keep = s.keep;
        to = put_kept(
            keep,
            runs,
            views,
            pool,
            out_segments,
            out_runs,
            out_views,
            out_pool,
            to,
        );
        i = s.i;
        j = s.j;
    }
    to
}
