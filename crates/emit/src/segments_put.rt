// Segments, laid with their prefixes and trees.
ghost use Rattle.std.specs.Prelude.{◌≡◌, ◌+◌, ◌-◌, ◌*◌, ◌/◌, ◌^◌, ◌≤◌, ◌<◌, length};
ghost use Rattle.tables.specs.Layout.{write, joined};
ghost use Rattle.records.specs.Row.{segment_at};
ghost use Rattle.records.specs.Decode.{bytes_in, segment_in, segments_in};
ghost use Rattle.records.specs.Fill.{plus, sum, segments, runs, key_fill, segment_fill};
ghost use Rattle.records.specs.Words.{segment_words};
ghost use Rattle.records.specs.Layout.{tree_views_laid, tree_runs_laid, past_prefix, segment_row, segment_bytes, segments_laid, segments_views_laid, segments_runs_laid};

use crate::runs_put::put_tree;
use crate::views_put::put_part;
use records::{Fill, Place, SegmentRow, TreeRow, segment_at, segment_words};
use tables::{Window, held, put};

// Appends the prefix of a segment. Its tree comes next, then its row.
// inner
pub fn put_prefix(p: Place, pool: &[u8], out_pool: &mut [u8], c: Fill) -> Fill
    requires { (c.segments + 1 < 2 ^ 64) × (c.bytes + length (bytes_in pool.now p) ≤ length out_pool.old) }
    ensures value { result ≡ plus (plus c (segments 1)) (key_fill (bytes_in pool.now p)) }
    ensures out_pool_after { out_pool.new ≡ write out_pool.old c.bytes (bytes_in pool.now p) }
{
    let past = put_part(p.at, p.len, pool, out_pool, c.bytes);
    Fill {
        segments: c.segments + 1,
        views: c.views,
        runs: c.runs,
        borrows: c.borrows,
        ids: c.ids,
        bytes: past,
    }
}

// Writes the row of a segment.
// inner
pub fn put_segment_row(prefix: Place, tree: TreeRow, out_segments: &mut [u64], i: usize)
    requires { i * 12 + 12 ≤ length out_segments.old }
    ensures { out_segments.new ≡ write out_segments.old (i * 12) (segment_words (record { prefix = prefix; tree = tree })) }
{
    let segment = SegmentRow { prefix, tree };
    let row = segment_words(segment);
    put(&row, out_segments, i * 12);
}

// Appends a segment.
// inner
pub fn put_segment(
    s: SegmentRow,
    runs: &[u64],
    views: &[u64],
    pool: &[u8],
    out_segments: &mut [u64],
    out_runs: &mut [u64],
    out_views: &mut [u64],
    out_pool: &mut [u8],
    c: Fill,
) -> Fill
    requires s_in_bounds { (c.segments + (segment_fill (segment_in runs.now views.now pool.now s)).segments) * 12 ≤ length out_segments.old }
    requires s_in_bounds_2 { (c.runs + (segment_fill (segment_in runs.now views.now pool.now s)).runs) * 3 ≤ length out_runs.old }
    requires s_in_bounds_3 { (c.views + (segment_fill (segment_in runs.now views.now pool.now s)).views) * 16 ≤ length out_views.old }
    requires s_in_bounds_4 { c.bytes + (segment_fill (segment_in runs.now views.now pool.now s)).bytes ≤ length out_pool.old }
    ensures value { result ≡ plus c (segment_fill (segment_in runs.now views.now pool.now s)) }
    ensures out_segments_after { out_segments.new ≡ write out_segments.old (c.segments * 12) (segment_words (segment_row c (segment_in runs.now views.now pool.now s))) }
    ensures out_runs_after { out_runs.new ≡ write out_runs.old (c.runs * 3) (tree_runs_laid (past_prefix c (segment_in runs.now views.now pool.now s)) (segment_in runs.now views.now pool.now s).tree) }
    ensures out_views_after { out_views.new ≡ write out_views.old (c.views * 16) (tree_views_laid (past_prefix c (segment_in runs.now views.now pool.now s)) (segment_in runs.now views.now pool.now s).tree) }
    ensures out_pool_after { out_pool.new ≡ write out_pool.old c.bytes (segment_bytes (segment_in runs.now views.now pool.now s)) }
{
    let p = s.prefix;
    let t = s.tree;
    let a = put_prefix(p, pool, out_pool, c);
    let laid = put_tree(t, runs, views, pool, out_runs, out_views, out_pool, a);
    let tree = laid.tree;
    let prefix = Place {
        at: c.bytes,
        len: a.bytes - c.bytes,
    };
    put_segment_row(prefix, tree, out_segments, c.segments);
    laid.past
}

// Appends segment `i` of a table.
fn put_segment_at(
    segments: &[u64],
    i: usize,
    runs: &[u64],
    views: &[u64],
    pool: &[u8],
    out_segments: &mut [u64],
    out_runs: &mut [u64],
    out_views: &mut [u64],
    out_pool: &mut [u8],
    c: Fill,
) -> Fill
    requires i_in_bounds { i < length segments.now / 12 }
    requires i_in_bounds_2 { (c.segments + (segment_fill (segment_in runs.now views.now pool.now (segment_at segments.now i))).segments) * 12 ≤ length out_segments.old }
    requires i_in_bounds_3 { (c.runs + (segment_fill (segment_in runs.now views.now pool.now (segment_at segments.now i))).runs) * 3 ≤ length out_runs.old }
    requires i_in_bounds_4 { (c.views + (segment_fill (segment_in runs.now views.now pool.now (segment_at segments.now i))).views) * 16 ≤ length out_views.old }
    requires i_in_bounds_5 { c.bytes + (segment_fill (segment_in runs.now views.now pool.now (segment_at segments.now i))).bytes ≤ length out_pool.old }
    ensures value { result ≡ plus c (segment_fill (segment_in runs.now views.now pool.now (segment_at segments.now i))) }
    ensures out_segments_after { out_segments.new ≡ write out_segments.old (c.segments * 12) (segment_words (segment_row c (segment_in runs.now views.now pool.now (segment_at segments.now i)))) }
    ensures out_runs_after { out_runs.new ≡ write out_runs.old (c.runs * 3) (tree_runs_laid (past_prefix c (segment_in runs.now views.now pool.now (segment_at segments.now i))) (segment_in runs.now views.now pool.now (segment_at segments.now i)).tree) }
    ensures out_views_after { out_views.new ≡ write out_views.old (c.views * 16) (tree_views_laid (past_prefix c (segment_in runs.now views.now pool.now (segment_at segments.now i))) (segment_in runs.now views.now pool.now (segment_at segments.now i)).tree) }
    ensures out_pool_after { out_pool.new ≡ write out_pool.old c.bytes (segment_bytes (segment_in runs.now views.now pool.now (segment_at segments.now i))) }
{
    put_segment(
        segment_at(segments, i),
        runs,
        views,
        pool,
        out_segments,
        out_runs,
        out_views,
        out_pool,
        c,
    )
}

// Appends the segments of a window.
// inner
pub fn put_segments(
    segments: &[u64],
    w: Window,
    runs: &[u64],
    views: &[u64],
    pool: &[u8],
    out_segments: &mut [u64],
    out_runs: &mut [u64],
    out_views: &mut [u64],
    out_pool: &mut [u8],
    c: Fill,
) -> Fill
    requires w_in_bounds { (c.segments + (sum segment_fill (segments_in segments.now runs.now views.now pool.now w)).segments) * 12 ≤ length out_segments.old }
    requires w_in_bounds_2 { (c.runs + (sum segment_fill (segments_in segments.now runs.now views.now pool.now w)).runs) * 3 ≤ length out_runs.old }
    requires w_in_bounds_3 { (c.views + (sum segment_fill (segments_in segments.now runs.now views.now pool.now w)).views) * 16 ≤ length out_views.old }
    requires w_in_bounds_4 { c.bytes + (sum segment_fill (segments_in segments.now runs.now views.now pool.now w)).bytes ≤ length out_pool.old }
    ensures value { result ≡ plus c (sum segment_fill (segments_in segments.now runs.now views.now pool.now w)) }
    ensures out_segments_after { out_segments.new ≡ write out_segments.old (c.segments * 12) (segments_laid c (segments_in segments.now runs.now views.now pool.now w)) }
    ensures out_runs_after { out_runs.new ≡ write out_runs.old (c.runs * 3) (segments_runs_laid c (segments_in segments.now runs.now views.now pool.now w)) }
    ensures out_views_after { out_views.new ≡ write out_views.old (c.views * 16) (segments_views_laid c (segments_in segments.now runs.now views.now pool.now w)) }
    ensures out_pool_after { out_pool.new ≡ write out_pool.old c.bytes (joined segment_bytes (segments_in segments.now runs.now views.now pool.now w)) }
{
    let n = held(w, segments.len() / 12);
    let first = w.first;
    let mut to = c;
    for k in 0..n {
        to = put_segment_at(
            segments,
            first + k,
            runs,
            views,
            pool,
            out_segments,
            out_runs,
            out_views,
            out_pool,
            to,
        );
    }
    to
}
