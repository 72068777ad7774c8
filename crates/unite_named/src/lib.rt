// The segments of a union with an extractor: for each prefix the trees that have views, joined in order.
#![tactic(auto)]

ghost use Rattle.std.specs.Prelude.{◌≡◌, true, ◌+◌, ◌*◌, ◌≤◌, length};
ghost use Rattle.tables.specs.Layout.{write, joined};
ghost use Rattle.records.specs.Decode.{bytes_in};
ghost use Rattle.records.specs.Words.{segment_words};
ghost use Rattle.records.specs.Fill.{plus, sum, fits, tree_fill, segment_fill};
ghost use Rattle.records.specs.Layout.{segment_row, past_prefix, tree_runs_laid, tree_views_laid, segment_bytes, segments_laid, segments_runs_laid, segments_views_laid};
ghost use Rattle.measure.specs.Walk.{add_of};
ghost use Rattle.unite_ranges.specs.Arranged.{some_overlap};
ghost use Rattle.unite_trees.specs.Joined.{joined_tree, numbered_segments};
ghost use Rattle.unite_trees.specs.Rows.{trees_in};
ghost use Rattle.unite_sources.specs.Rows.{begins, places_in};
ghost use Rattle.unite_named.specs.Named.{shares_in, overlap_at, segments_at, tree_tables};
ghost use Rattle.unite_named.specs.Steps.{prefix_in, piece_in, joined_as, numbered_as};

use emit::{put_prefix, put_segment_row};
use keys::part;
use measure::{add, fits_in};
use records::{Fill, Place, place_at};
use unite_ranges::ranges_overlap;
use unite_sources::shares_at;
use unite_trees::{measure_joined, put_joined};

// ---- whether shares overlap

// Whether those of prefix `i` do.
fn overlaps_at(
    sources: &[u64],
    order: &[u64],
    n: usize,
    prefixes: &[u64],
    i: usize,
    segments: &[u64],
    views: &[u64],
    runs: &[u64],
    pool: &[u8],
    shares: &mut [u64],
) -> bool
    requires n_in_bounds { n * 7 ≤ length order.now }
    requires n_in_bounds_2 { n * 7 ≤ length shares.old }
    requires i_in_bounds { (i + 1) * 2 ≤ length prefixes.now }
    ensures value { result ≡ some_overlap (shares_in (tree_tables segments.now views.now runs.now pool.now) sources.now (begins order.now n) (prefix_in prefixes.now pool.now i)) }
    ensures shares_len_unchanged { length shares.new ≡ length shares.old }
{
    let p = place_at(prefixes, i * 2);
    let m = shares_at(sources, order, n, p, segments, runs, views, pool, shares);
    ranges_overlap(shares, m, pool)
}

// How many of the first `np` prefixes stand before the first at which shares overlap; all where they do nowhere. `shares` is working memory.
// inner
pub fn first_overlap(
    sources: &[u64],
    order: &[u64],
    n: usize,
    prefixes: &[u64],
    np: usize,
    segments: &[u64],
    views: &[u64],
    runs: &[u64],
    pool: &[u8],
    shares: &mut [u64],
) -> usize
    requires n_in_bounds { n * 7 ≤ length order.now }
    requires n_in_bounds_2 { n * 7 ≤ length shares.old }
    requires np_in_bounds { np * 2 ≤ length prefixes.now }
    ensures value { result ≡ overlap_at (tree_tables segments.now views.now runs.now pool.now) sources.now (begins order.now n) (places_in prefixes.now pool.now np) }
    ensures shares_len_unchanged { length shares.new ≡ length shares.old }
{
    for k in 0..np {
        if overlaps_at(
            sources, order, n, prefixes, k, segments, views, runs, pool, shares,
        ) {
            return k;
        }
    }
    np
}

// ---- measured

// Adds the segment of the trees that the first `n` rows name.
fn add_segment(
    most: Fill,
    p: Place,
    rows: &[u64],
    n: usize,
    segments: &[u64],
    views: &[u64],
    runs: &[u64],
    pool: &[u8],
    c: Fill,
) -> Option<Fill>
    requires { n * 7 ≤ length rows.now }
    ensures { result ≡ add_of most c (segment_fill (joined_as (bytes_in pool.now p) (trees_in segments.now rows.now n runs.now views.now pool.now))) }
{
    let d = measure_joined(most, segments, rows, n, runs, views, pool, c)?;
    let k = part(pool, p.at, p.len).len();
    add(
        most,
        d,
        Fill {
            segments: 1,
            views: 0,
            runs: 0,
            borrows: 0,
            ids: 0,
            bytes: k,
        },
    )
}

// Adds that of prefix `i`, where it has one.
fn add_segment_at(
    most: Fill,
    sources: &[u64],
    order: &[u64],
    n: usize,
    prefixes: &[u64],
    i: usize,
    segments: &[u64],
    views: &[u64],
    runs: &[u64],
    pool: &[u8],
    shares: &mut [u64],
    c: Fill,
) -> Option<Fill>
    requires n_in_bounds { n * 7 ≤ length order.now }
    requires n_in_bounds_2 { n * 7 ≤ length shares.old }
    requires i_in_bounds { (i + 1) * 2 ≤ length prefixes.now }
    requires most_value { fits c most ≡ true }
    ensures value { result ≡ add_of most c (sum segment_fill (piece_in segments.now views.now runs.now pool.now sources.now order.now n prefixes.now i)) }
    ensures shares_len_unchanged { length shares.new ≡ length shares.old }
{
    let p = place_at(prefixes, i * 2);
    let m = shares_at(sources, order, n, p, segments, runs, views, pool, shares);
    if m == 0 {
        return Some(c);
    }
    add_segment(most, p, shares, m, segments, views, runs, pool, c)
}

// What the segments fill, with `c`, where it is at most `most`.
// inner
pub fn measure_named(
    most: Fill,
    sources: &[u64],
    order: &[u64],
    n: usize,
    prefixes: &[u64],
    np: usize,
    segments: &[u64],
    views: &[u64],
    runs: &[u64],
    pool: &[u8],
    shares: &mut [u64],
    c: Fill,
) -> Option<Fill>
    requires n_in_bounds { n * 7 ≤ length order.now }
    requires n_in_bounds_2 { n * 7 ≤ length shares.old }
    requires np_in_bounds { np * 2 ≤ length prefixes.now }
    ensures value { result ≡ add_of most c (sum segment_fill (segments_at (tree_tables segments.now views.now runs.now pool.now) sources.now (begins order.now n) (places_in prefixes.now pool.now np))) }
    ensures shares_len_unchanged { length shares.new ≡ length shares.old }
{
    if !fits_in(c, most) {
        return None;
    }
    let mut d = c;
    for k in 0..np {
        d = add_segment_at(
            most, sources, order, n, prefixes, k, segments, views, runs, pool, shares, d,
        )?;
    }
    Some(d)
}

// ---- laid

// Appends the segment of the trees that the first `n` rows name.
fn put_one(
    p: Place,
    rows: &[u64],
    n: usize,
    left: usize,
    segments: &[u64],
    views: &[u64],
    runs: &[u64],
    pool: &[u8],
    out_segments: &mut [u64],
    out_runs: &mut [u64],
    out_views: &mut [u64],
    out_pool: &mut [u8],
    c: Fill,
) -> Fill
    requires n_in_bounds { n * 7 ≤ length rows.now }
    requires pool_bound { (tree_fill (joined_tree (trees_in segments.now rows.now n runs.now views.now pool.now))).runs ≤ left }
    requires pool_in_bounds { (c.segments + (segment_fill (numbered_as left (joined_as (bytes_in pool.now p) (trees_in segments.now rows.now n runs.now views.now pool.now)))).segments) * 12 ≤ length out_segments.old }
    requires pool_in_bounds_2 { (c.runs + (segment_fill (numbered_as left (joined_as (bytes_in pool.now p) (trees_in segments.now rows.now n runs.now views.now pool.now)))).runs) * 3 ≤ length out_runs.old }
    requires pool_in_bounds_3 { (c.views + (segment_fill (numbered_as left (joined_as (bytes_in pool.now p) (trees_in segments.now rows.now n runs.now views.now pool.now)))).views) * 16 ≤ length out_views.old }
    requires pool_in_bounds_4 { c.bytes + (segment_fill (numbered_as left (joined_as (bytes_in pool.now p) (trees_in segments.now rows.now n runs.now views.now pool.now)))).bytes ≤ length out_pool.old }
    ensures value { result ≡ plus c (segment_fill (numbered_as left (joined_as (bytes_in pool.now p) (trees_in segments.now rows.now n runs.now views.now pool.now)))) }
    ensures out_segments_after { out_segments.new ≡ write out_segments.old (c.segments * 12) (segment_words (segment_row c (numbered_as left (joined_as (bytes_in pool.now p) (trees_in segments.now rows.now n runs.now views.now pool.now))))) }
    ensures out_runs_after { out_runs.new ≡ write out_runs.old (c.runs * 3) (tree_runs_laid (past_prefix c (numbered_as left (joined_as (bytes_in pool.now p) (trees_in segments.now rows.now n runs.now views.now pool.now)))) (numbered_as left (joined_as (bytes_in pool.now p) (trees_in segments.now rows.now n runs.now views.now pool.now))).tree) }
    ensures out_views_after { out_views.new ≡ write out_views.old (c.views * 16) (tree_views_laid (past_prefix c (numbered_as left (joined_as (bytes_in pool.now p) (trees_in segments.now rows.now n runs.now views.now pool.now)))) (numbered_as left (joined_as (bytes_in pool.now p) (trees_in segments.now rows.now n runs.now views.now pool.now))).tree) }
    ensures out_pool_after { out_pool.new ≡ write out_pool.old c.bytes (segment_bytes (numbered_as left (joined_as (bytes_in pool.now p) (trees_in segments.now rows.now n runs.now views.now pool.now)))) }
{
    let a = put_prefix(p, pool, out_pool, c);
    let laid = put_joined(
        segments, rows, n, left, runs, views, pool, out_runs, out_views, out_pool, a,
    );
    let prefix = Place {
        at: c.bytes,
        len: a.bytes - c.bytes,
    };
    put_segment_row(prefix, laid.tree, out_segments, c.segments);
    laid.past
}

// Appends that of prefix `i`, where it has one.
fn put_one_at(
    sources: &[u64],
    order: &[u64],
    n: usize,
    prefixes: &[u64],
    i: usize,
    left: usize,
    segments: &[u64],
    views: &[u64],
    runs: &[u64],
    pool: &[u8],
    shares: &mut [u64],
    out_segments: &mut [u64],
    out_runs: &mut [u64],
    out_views: &mut [u64],
    out_pool: &mut [u8],
    c: Fill,
) -> Fill
    requires n_in_bounds { n * 7 ≤ length order.now }
    requires n_in_bounds_2 { n * 7 ≤ length shares.old }
    requires i_in_bounds { (i + 1) * 2 ≤ length prefixes.now }
    requires i_bound { (sum segment_fill (piece_in segments.now views.now runs.now pool.now sources.now order.now n prefixes.now i)).runs ≤ left }
    requires i_in_bounds_2 { (c.segments + (sum segment_fill (numbered_segments left (piece_in segments.now views.now runs.now pool.now sources.now order.now n prefixes.now i))).segments) * 12 ≤ length out_segments.old }
    requires i_in_bounds_3 { (c.runs + (sum segment_fill (numbered_segments left (piece_in segments.now views.now runs.now pool.now sources.now order.now n prefixes.now i))).runs) * 3 ≤ length out_runs.old }
    requires i_in_bounds_4 { (c.views + (sum segment_fill (numbered_segments left (piece_in segments.now views.now runs.now pool.now sources.now order.now n prefixes.now i))).views) * 16 ≤ length out_views.old }
    requires i_in_bounds_5 { c.bytes + (sum segment_fill (numbered_segments left (piece_in segments.now views.now runs.now pool.now sources.now order.now n prefixes.now i))).bytes ≤ length out_pool.old }
    ensures value { result ≡ plus c (sum segment_fill (numbered_segments left (piece_in segments.now views.now runs.now pool.now sources.now order.now n prefixes.now i))) }
    ensures out_segments_after { out_segments.new ≡ write out_segments.old (c.segments * 12) (segments_laid c (numbered_segments left (piece_in segments.now views.now runs.now pool.now sources.now order.now n prefixes.now i))) }
    ensures out_runs_after { out_runs.new ≡ write out_runs.old (c.runs * 3) (segments_runs_laid c (numbered_segments left (piece_in segments.now views.now runs.now pool.now sources.now order.now n prefixes.now i))) }
    ensures out_views_after { out_views.new ≡ write out_views.old (c.views * 16) (segments_views_laid c (numbered_segments left (piece_in segments.now views.now runs.now pool.now sources.now order.now n prefixes.now i))) }
    ensures out_pool_after { out_pool.new ≡ write out_pool.old c.bytes (joined segment_bytes (numbered_segments left (piece_in segments.now views.now runs.now pool.now sources.now order.now n prefixes.now i))) }
    ensures shares_len_unchanged { length shares.new ≡ length shares.old }
{
    let p = place_at(prefixes, i * 2);
    let m = shares_at(sources, order, n, p, segments, runs, views, pool, shares);
    if m == 0 {
        return c;
    }
    put_one(
        p,
        shares,
        m,
        left,
        segments,
        views,
        runs,
        pool,
        out_segments,
        out_runs,
        out_views,
        out_pool,
        c,
    )
}

// Appends the segments. `left` runs are left to be numbered, with theirs.
// inner
pub fn put_named(
    sources: &[u64],
    order: &[u64],
    n: usize,
    prefixes: &[u64],
    np: usize,
    left: usize,
    segments: &[u64],
    views: &[u64],
    runs: &[u64],
    pool: &[u8],
    shares: &mut [u64],
    out_segments: &mut [u64],
    out_runs: &mut [u64],
    out_views: &mut [u64],
    out_pool: &mut [u8],
    c: Fill,
) -> Fill
    requires n_in_bounds { n * 7 ≤ length order.now }
    requires n_in_bounds_2 { n * 7 ≤ length shares.old }
    requires np_in_bounds { np * 2 ≤ length prefixes.now }
    requires np_bound { (sum segment_fill (segments_at (tree_tables segments.now views.now runs.now pool.now) sources.now (begins order.now n) (places_in prefixes.now pool.now np))).runs ≤ left }
    requires np_in_bounds_2 { (c.segments + (sum segment_fill (segments_at (tree_tables segments.now views.now runs.now pool.now) sources.now (begins order.now n) (places_in prefixes.now pool.now np))).segments) * 12 ≤ length out_segments.old }
    requires np_in_bounds_3 { (c.runs + (sum segment_fill (segments_at (tree_tables segments.now views.now runs.now pool.now) sources.now (begins order.now n) (places_in prefixes.now pool.now np))).runs) * 3 ≤ length out_runs.old }
    requires np_in_bounds_4 { (c.views + (sum segment_fill (segments_at (tree_tables segments.now views.now runs.now pool.now) sources.now (begins order.now n) (places_in prefixes.now pool.now np))).views) * 16 ≤ length out_views.old }
    requires np_in_bounds_5 { c.bytes + (sum segment_fill (segments_at (tree_tables segments.now views.now runs.now pool.now) sources.now (begins order.now n) (places_in prefixes.now pool.now np))).bytes ≤ length out_pool.old }
    ensures value { result ≡ plus c (sum segment_fill (segments_at (tree_tables segments.now views.now runs.now pool.now) sources.now (begins order.now n) (places_in prefixes.now pool.now np))) }
    ensures out_segments_after { out_segments.new ≡ write out_segments.old (c.segments * 12) (segments_laid c (numbered_segments left (segments_at (tree_tables segments.now views.now runs.now pool.now) sources.now (begins order.now n) (places_in prefixes.now pool.now np)))) }
    ensures out_runs_after { out_runs.new ≡ write out_runs.old (c.runs * 3) (segments_runs_laid c (numbered_segments left (segments_at (tree_tables segments.now views.now runs.now pool.now) sources.now (begins order.now n) (places_in prefixes.now pool.now np)))) }
    ensures out_views_after { out_views.new ≡ write out_views.old (c.views * 16) (segments_views_laid c (numbered_segments left (segments_at (tree_tables segments.now views.now runs.now pool.now) sources.now (begins order.now n) (places_in prefixes.now pool.now np)))) }
    ensures out_pool_after { out_pool.new ≡ write out_pool.old c.bytes (joined segment_bytes (numbered_segments left (segments_at (tree_tables segments.now views.now runs.now pool.now) sources.now (begins order.now n) (places_in prefixes.now pool.now np)))) }
{
    let mut to = c;
    for k in 0..np {
        let rest = left - (to.runs - c.runs);
        to = put_one_at(
            sources,
            order,
            n,
            prefixes,
            k,
            rest,
            segments,
            views,
            runs,
            pool,
            shares,
            out_segments,
            out_runs,
            out_views,
            out_pool,
            to,
        );
    }
    to
}
