// What is left, laid out.
ghost use Rattle.std.specs.Prelude.{◌≡◌, [], ◌++◌, ◌+◌, ◌*◌, ◌/◌, ◌≤◌, ◌<◌, length};
ghost use Rattle.tables.specs.Layout.{write, joined};
ghost use Rattle.records.specs.Row.{segment_at};
ghost use Rattle.records.specs.Decode.{tree_in, segment_in, segments_in};
ghost use Rattle.records.specs.Fill.{plus, sum, tree_fill, segment_fill};
ghost use Rattle.records.specs.Layout.{tree_row, tree_runs_laid, tree_views_laid, tree_bytes, segment_row, segments_laid, segments_runs_laid, segments_views_laid, segment_bytes, past_prefix};
ghost use Rattle.records.specs.Words.{segment_words};
ghost use Rattle.project_ranges.specs.Action.{action_of};
ghost use Rattle.project_ranges.specs.Args.{config_in, action_in};
ghost use Rattle.project_lay.specs.After.{tree_after, segment_after, segments_after};
ghost use Rattle.project_lay.specs.Steps.{kept_as, piece_at};

use crate::left_measured::stays;
use emit::{LaidTree, put_prefix, put_segment_row, put_tree, tree_row};
use project_ranges::{ProjectionConfig, SegmentAction, resolve_segment_action};
use project_views::project_tree_in_place;
use records::{Fill, Place, SegmentRow, TreeRow, segment_at};
use tables::{Window, held};

// Appends what becomes of a tree.
fn put_tree_after(
    a: SegmentAction,
    t: TreeRow,
    runs: &[u64],
    views: &[u64],
    pool: &[u8],
    out_runs: &mut [u64],
    out_views: &mut [u64],
    out_pool: &mut [u8],
    c: Fill,
) -> LaidTree
    requires t_in_bounds { (c.runs + (tree_fill (tree_after (action_in pool.now a) (tree_in runs.now views.now pool.now t))).runs) * 3 ≤ length out_runs.old }
    requires t_in_bounds_2 { (c.views + (tree_fill (tree_after (action_in pool.now a) (tree_in runs.now views.now pool.now t))).views) * 16 ≤ length out_views.old }
    requires t_in_bounds_3 { c.bytes + (tree_fill (tree_after (action_in pool.now a) (tree_in runs.now views.now pool.now t))).bytes ≤ length out_pool.old }
    ensures value { result ≡ record { tree = tree_row c (tree_after (action_in pool.now a) (tree_in runs.now views.now pool.now t)); past = plus c (tree_fill (tree_after (action_in pool.now a) (tree_in runs.now views.now pool.now t))) } }
    ensures out_runs_after { out_runs.new ≡ write out_runs.old (c.runs * 3) (tree_runs_laid c (tree_after (action_in pool.now a) (tree_in runs.now views.now pool.now t))) }
    ensures out_views_after { out_views.new ≡ write out_views.old (c.views * 16) (tree_views_laid c (tree_after (action_in pool.now a) (tree_in runs.now views.now pool.now t))) }
    ensures out_pool_after { out_pool.new ≡ write out_pool.old c.bytes (tree_bytes (tree_after (action_in pool.now a) (tree_in runs.now views.now pool.now t))) }
{
    match a {
        SegmentAction::Drop => {
            let tree = tree_row(None, None, c, c, c);
            LaidTree { tree, past: c }
        }
        SegmentAction::Project(r) => {
            project_tree_in_place(t, runs, views, pool, r, out_runs, out_views, out_pool, c)
        }
        SegmentAction::PassThrough => {
            put_tree(t, runs, views, pool, out_runs, out_views, out_pool, c)
        }
    }
}

// Appends a segment that stays.
fn put_segment_kept(
    a: SegmentAction,
    s: SegmentRow,
    runs: &[u64],
    views: &[u64],
    pool: &[u8],
    out_segments: &mut [u64],
    out_runs: &mut [u64],
    out_views: &mut [u64],
    out_pool: &mut [u8],
    c: Fill,
) -> Fill
    requires s_in_bounds { (c.segments + (segment_fill (kept_as (action_in pool.now a) (segment_in runs.now views.now pool.now s))).segments) * 12 ≤ length out_segments.old }
    requires s_in_bounds_2 { (c.runs + (segment_fill (kept_as (action_in pool.now a) (segment_in runs.now views.now pool.now s))).runs) * 3 ≤ length out_runs.old }
    requires s_in_bounds_3 { (c.views + (segment_fill (kept_as (action_in pool.now a) (segment_in runs.now views.now pool.now s))).views) * 16 ≤ length out_views.old }
    requires s_in_bounds_4 { c.bytes + (segment_fill (kept_as (action_in pool.now a) (segment_in runs.now views.now pool.now s))).bytes ≤ length out_pool.old }
    ensures value { result ≡ plus c (segment_fill (kept_as (action_in pool.now a) (segment_in runs.now views.now pool.now s))) }
    ensures out_segments_after { out_segments.new ≡ write out_segments.old (c.segments * 12) (segment_words (segment_row c (kept_as (action_in pool.now a) (segment_in runs.now views.now pool.now s)))) }
    ensures out_runs_after { out_runs.new ≡ write out_runs.old (c.runs * 3) (tree_runs_laid (past_prefix c (kept_as (action_in pool.now a) (segment_in runs.now views.now pool.now s))) (kept_as (action_in pool.now a) (segment_in runs.now views.now pool.now s)).tree) }
    ensures out_views_after { out_views.new ≡ write out_views.old (c.views * 16) (tree_views_laid (past_prefix c (kept_as (action_in pool.now a) (segment_in runs.now views.now pool.now s))) (kept_as (action_in pool.now a) (segment_in runs.now views.now pool.now s)).tree) }
    ensures out_pool_after { out_pool.new ≡ write out_pool.old c.bytes (segment_bytes (kept_as (action_in pool.now a) (segment_in runs.now views.now pool.now s))) }
{
    let to = put_prefix(s.prefix, pool, out_pool, c);
    let laid = put_tree_after(
        a, s.tree, runs, views, pool, out_runs, out_views, out_pool, to,
    );
    let prefix = Place {
        at: c.bytes,
        len: to.bytes - c.bytes,
    };
    put_segment_row(prefix, laid.tree, out_segments, c.segments);
    laid.past
}

// Appends what is left of a segment.
fn put_segment_after(
    a: SegmentAction,
    s: SegmentRow,
    runs: &[u64],
    views: &[u64],
    pool: &[u8],
    out_segments: &mut [u64],
    out_runs: &mut [u64],
    out_views: &mut [u64],
    out_pool: &mut [u8],
    c: Fill,
) -> Fill
    requires s_in_bounds { (c.segments + (sum segment_fill (segment_after (action_in pool.now a) (segment_in runs.now views.now pool.now s))).segments) * 12 ≤ length out_segments.old }
    requires s_in_bounds_2 { (c.runs + (sum segment_fill (segment_after (action_in pool.now a) (segment_in runs.now views.now pool.now s))).runs) * 3 ≤ length out_runs.old }
    requires s_in_bounds_3 { (c.views + (sum segment_fill (segment_after (action_in pool.now a) (segment_in runs.now views.now pool.now s))).views) * 16 ≤ length out_views.old }
    requires s_in_bounds_4 { c.bytes + (sum segment_fill (segment_after (action_in pool.now a) (segment_in runs.now views.now pool.now s))).bytes ≤ length out_pool.old }
    ensures value { result ≡ plus c (sum segment_fill (segment_after (action_in pool.now a) (segment_in runs.now views.now pool.now s))) }
    ensures out_segments_after { out_segments.new ≡ write out_segments.old (c.segments * 12) (segments_laid c (segment_after (action_in pool.now a) (segment_in runs.now views.now pool.now s))) }
    ensures out_runs_after { out_runs.new ≡ write out_runs.old (c.runs * 3) (segments_runs_laid c (segment_after (action_in pool.now a) (segment_in runs.now views.now pool.now s))) }
    ensures out_views_after { out_views.new ≡ write out_views.old (c.views * 16) (segments_views_laid c (segment_after (action_in pool.now a) (segment_in runs.now views.now pool.now s))) }
    ensures out_pool_after { out_pool.new ≡ write out_pool.old c.bytes (joined segment_bytes (segment_after (action_in pool.now a) (segment_in runs.now views.now pool.now s))) }
{
    if stays(a, s.tree, runs, views, pool) {
        return put_segment_kept(
            a,
            s,
            runs,
            views,
            pool,
            out_segments,
            out_runs,
            out_views,
            out_pool,
            c,
        );
    }
    c
}

// Appends what is left of row `i` of a table, whose tree is at this place.
fn put_segment_at(
    segments: &[u64],
    i: usize,
    place: usize,
    runs: &[u64],
    views: &[u64],
    pool: &[u8],
    config: ProjectionConfig,
    own: &[u64],
    out_segments: &mut [u64],
    out_runs: &mut [u64],
    out_views: &mut [u64],
    out_pool: &mut [u8],
    c: Fill,
) -> Fill
    requires i_in_bounds { i < length segments.now / 12 }
    requires i_in_bounds_2 { (c.segments + (sum segment_fill (piece_at (config_in pool.now config own.now) place (segment_in runs.now views.now pool.now (segment_at segments.now i)))).segments) * 12 ≤ length out_segments.old }
    requires i_in_bounds_3 { (c.runs + (sum segment_fill (piece_at (config_in pool.now config own.now) place (segment_in runs.now views.now pool.now (segment_at segments.now i)))).runs) * 3 ≤ length out_runs.old }
    requires i_in_bounds_4 { (c.views + (sum segment_fill (piece_at (config_in pool.now config own.now) place (segment_in runs.now views.now pool.now (segment_at segments.now i)))).views) * 16 ≤ length out_views.old }
    requires i_in_bounds_5 { c.bytes + (sum segment_fill (piece_at (config_in pool.now config own.now) place (segment_in runs.now views.now pool.now (segment_at segments.now i)))).bytes ≤ length out_pool.old }
    ensures value { result ≡ plus c (sum segment_fill (piece_at (config_in pool.now config own.now) place (segment_in runs.now views.now pool.now (segment_at segments.now i)))) }
    ensures out_segments_after { out_segments.new ≡ write out_segments.old (c.segments * 12) (segments_laid c (piece_at (config_in pool.now config own.now) place (segment_in runs.now views.now pool.now (segment_at segments.now i)))) }
    ensures out_runs_after { out_runs.new ≡ write out_runs.old (c.runs * 3) (segments_runs_laid c (piece_at (config_in pool.now config own.now) place (segment_in runs.now views.now pool.now (segment_at segments.now i)))) }
    ensures out_views_after { out_views.new ≡ write out_views.old (c.views * 16) (segments_views_laid c (piece_at (config_in pool.now config own.now) place (segment_in runs.now views.now pool.now (segment_at segments.now i)))) }
    ensures out_pool_after { out_pool.new ≡ write out_pool.old c.bytes (joined segment_bytes (piece_at (config_in pool.now config own.now) place (segment_in runs.now views.now pool.now (segment_at segments.now i)))) }
{
    let s = segment_at(segments, i);
    let a = resolve_segment_action(pool, s.prefix, place, config, own);
    put_segment_after(
        a,
        s,
        runs,
        views,
        pool,
        out_segments,
        out_runs,
        out_views,
        out_pool,
        c,
    )
}

// Appends what is left of the segments of a window.
fn put_segments_after(
    segments: &[u64],
    w: Window,
    runs: &[u64],
    views: &[u64],
    pool: &[u8],
    config: ProjectionConfig,
    own: &[u64],
    out_segments: &mut [u64],
    out_runs: &mut [u64],
    out_views: &mut [u64],
    out_pool: &mut [u8],
    c: Fill,
) -> Fill
    requires w_in_bounds { (c.segments + (sum segment_fill (segments_after (config_in pool.now config own.now) 1 (segments_in segments.now runs.now views.now pool.now w))).segments) * 12 ≤ length out_segments.old }
    requires w_in_bounds_2 { (c.runs + (sum segment_fill (segments_after (config_in pool.now config own.now) 1 (segments_in segments.now runs.now views.now pool.now w))).runs) * 3 ≤ length out_runs.old }
    requires w_in_bounds_3 { (c.views + (sum segment_fill (segments_after (config_in pool.now config own.now) 1 (segments_in segments.now runs.now views.now pool.now w))).views) * 16 ≤ length out_views.old }
    requires w_in_bounds_4 { c.bytes + (sum segment_fill (segments_after (config_in pool.now config own.now) 1 (segments_in segments.now runs.now views.now pool.now w))).bytes ≤ length out_pool.old }
    ensures value { result ≡ plus c (sum segment_fill (segments_after (config_in pool.now config own.now) 1 (segments_in segments.now runs.now views.now pool.now w))) }
    ensures out_segments_after { out_segments.new ≡ write out_segments.old (c.segments * 12) (segments_laid c (segments_after (config_in pool.now config own.now) 1 (segments_in segments.now runs.now views.now pool.now w))) }
    ensures out_runs_after { out_runs.new ≡ write out_runs.old (c.runs * 3) (segments_runs_laid c (segments_after (config_in pool.now config own.now) 1 (segments_in segments.now runs.now views.now pool.now w))) }
    ensures out_views_after { out_views.new ≡ write out_views.old (c.views * 16) (segments_views_laid c (segments_after (config_in pool.now config own.now) 1 (segments_in segments.now runs.now views.now pool.now w))) }
    ensures out_pool_after { out_pool.new ≡ write out_pool.old c.bytes (joined segment_bytes (segments_after (config_in pool.now config own.now) 1 (segments_in segments.now runs.now views.now pool.now w))) }
{
    let n = held(w, segments.len() / 12);
    let mut to = c;
    for k in 0..n {
        to = put_segment_at(
            segments,
            w.first + k,
            k + 1,
            runs,
            views,
            pool,
            config,
            own,
            out_segments,
            out_runs,
            out_views,
            out_pool,
            to,
        );
    }
    to
}

// Appends what is left of the unsegmented tree, then of the segments.
// inner
pub fn put_trees_after(
    t: TreeRow,
    segments: &[u64],
    w: Window,
    runs: &[u64],
    views: &[u64],
    pool: &[u8],
    config: ProjectionConfig,
    own: &[u64],
    out_segments: &mut [u64],
    out_runs: &mut [u64],
    out_views: &mut [u64],
    out_pool: &mut [u8],
    c: Fill,
) -> LaidTree
    requires w_in_bounds { (c.segments + (plus (tree_fill (tree_after (action_of (config_in pool.now config own.now) 0 []) (tree_in runs.now views.now pool.now t))) (sum segment_fill (segments_after (config_in pool.now config own.now) 1 (segments_in segments.now runs.now views.now pool.now w)))).segments) * 12 ≤ length out_segments.old }
    requires w_in_bounds_2 { (c.runs + (plus (tree_fill (tree_after (action_of (config_in pool.now config own.now) 0 []) (tree_in runs.now views.now pool.now t))) (sum segment_fill (segments_after (config_in pool.now config own.now) 1 (segments_in segments.now runs.now views.now pool.now w)))).runs) * 3 ≤ length out_runs.old }
    requires w_in_bounds_3 { (c.views + (plus (tree_fill (tree_after (action_of (config_in pool.now config own.now) 0 []) (tree_in runs.now views.now pool.now t))) (sum segment_fill (segments_after (config_in pool.now config own.now) 1 (segments_in segments.now runs.now views.now pool.now w)))).views) * 16 ≤ length out_views.old }
    requires w_in_bounds_4 { c.bytes + (plus (tree_fill (tree_after (action_of (config_in pool.now config own.now) 0 []) (tree_in runs.now views.now pool.now t))) (sum segment_fill (segments_after (config_in pool.now config own.now) 1 (segments_in segments.now runs.now views.now pool.now w)))).bytes ≤ length out_pool.old }
    ensures value { result ≡ record { tree = tree_row c (tree_after (action_of (config_in pool.now config own.now) 0 []) (tree_in runs.now views.now pool.now t)); past = plus c (plus (tree_fill (tree_after (action_of (config_in pool.now config own.now) 0 []) (tree_in runs.now views.now pool.now t))) (sum segment_fill (segments_after (config_in pool.now config own.now) 1 (segments_in segments.now runs.now views.now pool.now w)))) } }
    ensures out_segments_after { out_segments.new ≡ write out_segments.old (c.segments * 12) (segments_laid (plus c (tree_fill (tree_after (action_of (config_in pool.now config own.now) 0 []) (tree_in runs.now views.now pool.now t)))) (segments_after (config_in pool.now config own.now) 1 (segments_in segments.now runs.now views.now pool.now w))) }
    ensures out_runs_after { out_runs.new ≡ write out_runs.old (c.runs * 3) (tree_runs_laid c (tree_after (action_of (config_in pool.now config own.now) 0 []) (tree_in runs.now views.now pool.now t)) ++ segments_runs_laid (plus c (tree_fill (tree_after (action_of (config_in pool.now config own.now) 0 []) (tree_in runs.now views.now pool.now t)))) (segments_after (config_in pool.now config own.now) 1 (segments_in segments.now runs.now views.now pool.now w))) }
    ensures out_views_after { out_views.new ≡ write out_views.old (c.views * 16) (tree_views_laid c (tree_after (action_of (config_in pool.now config own.now) 0 []) (tree_in runs.now views.now pool.now t)) ++ segments_views_laid (plus c (tree_fill (tree_after (action_of (config_in pool.now config own.now) 0 []) (tree_in runs.now views.now pool.now t)))) (segments_after (config_in pool.now config own.now) 1 (segments_in segments.now runs.now views.now pool.now w))) }
    ensures out_pool_after { out_pool.new ≡ write out_pool.old c.bytes (tree_bytes (tree_after (action_of (config_in pool.now config own.now) 0 []) (tree_in runs.now views.now pool.now t)) ++ joined segment_bytes (segments_after (config_in pool.now config own.now) 1 (segments_in segments.now runs.now views.now pool.now w))) }
{
    let whole = Place { at: 0, len: 0 };
    let a = resolve_segment_action(pool, whole, 0, config, own);
    let laid = put_tree_after(a, t, runs, views, pool, out_runs, out_views, out_pool, c);
    let past = put_segments_after(
        segments,
        w,
        runs,
        views,
        pool,
        config,
        own,
        out_segments,
        out_runs,
        out_views,
        out_pool,
        laid.past,
    );
    LaidTree {
        tree: laid.tree,
        past,
    }
}
