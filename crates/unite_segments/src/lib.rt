// Union with an extractor: the segments and the borrows laid as one manifest.
#![tactic(auto)]

ghost use Rattle.std.specs.Prelude.{◌≡◌, true, [], ◌++◌, ◌+◌, ◌*◌, ◌≤◌, length};
ghost use Rattle.tables.specs.Layout.{write, over, joined};
ghost use Rattle.records.specs.Model.{named};
ghost use Rattle.records.specs.New.{new_tree};
ghost use Rattle.records.specs.Decode.{bytes_in};
ghost use Rattle.records.specs.Fill.{empty, plus, sum, fits, key_fill, name_keys, segment_fill};
ghost use Rattle.records.specs.Layout.{run, name_row, borrows_laid, borrow_ids, borrow_path, manifest_row, layout};
ghost use Rattle.measure.specs.Walk.{add_of};
ghost use Rattle.copy.specs.Copy.{room_of};
ghost use Rattle.merge.specs.Steps.{new_row};
ghost use Rattle.borrows.specs.Clone.{uuids_of};
ghost use Rattle.unite_groups.specs.Chosen.{lent_from};
ghost use Rattle.unite_groups.specs.Rows.{members_in};
ghost use Rattle.unite_sources.specs.Rows.{begins, places_in};
ghost use Rattle.unite_named.specs.Named.{segments_at, tree_tables};
ghost use Rattle.unite.specs.United.{assembled};
ghost use Rattle.unite.specs.Answer.{union_to};
ghost use Rattle.unite.specs.Steps.{united_row};
ghost use Rattle.unite_segments.specs.Steps.{named_segments, named_union, rest_fill, named_fill};

use emit::put_name;
use keys::part;
use measure::{add, fits_in};
use records::{Fill, Limits, ManifestRow, Place, Refusal, TreeRow};
use tables::Window;
use unite::{no_fill, united_row};
use unite_groups::{measure_groups, put_groups};
use unite_named::{measure_named, put_named};

// ---- measured

// Adds the name and the first `count` groups.
fn measure_rest(
    most: Fill,
    name: Place,
    pool: &[u8],
    groups: &[u64],
    count: usize,
    sets: &[u64],
    c: Fill,
) -> Option<Fill>
    requires { count * 6 ≤ length groups.now }
    ensures { result ≡ add_of most c (rest_fill (bytes_in pool.now name) (members_in groups.now sets.now pool.now count)) }
{
    let more = Fill {
        segments: 0,
        views: 0,
        runs: 0,
        borrows: 0,
        ids: 0,
        bytes: part(pool, name.at, name.len).len(),
    };
    let d = add(most, c, more)?;
    measure_groups(most, groups, count, sets, pool, d)
}

// What the segments, the name and the first `count` groups fill, where it is at most `most`.
fn measure_prefixed(
    most: Fill,
    sources: &[u64],
    order: &[u64],
    n: usize,
    prefixes: &[u64],
    np: usize,
    name: Place,
    segments: &[u64],
    views: &[u64],
    runs: &[u64],
    pool: &[u8],
    groups: &[u64],
    count: usize,
    sets: &[u64],
    shares: &mut [u64],
) -> Option<Fill>
    requires n_in_bounds { n * 7 ≤ length order.now }
    requires n_in_bounds_2 { n * 7 ≤ length shares.old }
    requires np_in_bounds { np * 2 ≤ length prefixes.now }
    requires count_in_bounds { count * 6 ≤ length groups.now }
    ensures { result ≡ add_of most empty (named_fill (named_segments segments.now views.now runs.now pool.now sources.now order.now n prefixes.now np) (bytes_in pool.now name) (members_in groups.now sets.now pool.now count)) }
{
    let c = no_fill();
    let d = measure_named(
        most, sources, order, n, prefixes, np, segments, views, runs, pool, shares, c,
    )?;
    measure_rest(most, name, pool, groups, count, sets, d)
}

// ---- laid

// Appends the name, then the first `count` groups as borrows.
fn put_rest(
    name: Place,
    pool: &[u8],
    groups: &[u64],
    count: usize,
    sets: &[u64],
    fresh: &[u64],
    out_borrows: &mut [u64],
    out_ids: &mut [u64],
    out_pool: &mut [u8],
    c: Fill,
) -> Option<Place>
    requires count_in_bounds { count * 6 ≤ length groups.now }
    requires count_in_bounds_2 { (c.borrows + (rest_fill (bytes_in pool.now name) (members_in groups.now sets.now pool.now count)).borrows) * 9 ≤ length out_borrows.old }
    requires count_in_bounds_3 { (c.ids + (rest_fill (bytes_in pool.now name) (members_in groups.now sets.now pool.now count)).ids) * 2 ≤ length out_ids.old }
    requires count_in_bounds_4 { c.bytes + (rest_fill (bytes_in pool.now name) (members_in groups.now sets.now pool.now count)).bytes ≤ length out_pool.old }
    ensures value { result ≡ name_row c.bytes (named (bytes_in pool.now name)) }
    ensures out_borrows_after { out_borrows.new ≡ write out_borrows.old (c.borrows * 9) (borrows_laid (plus c (sum key_fill (name_keys (named (bytes_in pool.now name))))) (lent_from (uuids_of fresh.now) 0 (members_in groups.now sets.now pool.now count))) }
    ensures out_ids_after { out_ids.new ≡ write out_ids.old (c.ids * 2) (joined borrow_ids (lent_from (uuids_of fresh.now) 0 (members_in groups.now sets.now pool.now count))) }
    ensures out_pool_after { out_pool.new ≡ write out_pool.old c.bytes (run (name_keys (named (bytes_in pool.now name))) ++ joined borrow_path (lent_from (uuids_of fresh.now) 0 (members_in groups.now sets.now pool.now count))) }
{
    let laid = put_name(Some(name), pool, out_pool, c);
    put_groups(
        groups,
        count,
        sets,
        pool,
        fresh,
        out_borrows,
        out_ids,
        out_pool,
        laid.past,
    );
    laid.name
}

// The row of such a union with segments: its tree is the new manifest's too.
fn segmented_row(segments: usize, name: Option<Place>, borrows: usize, seq: u64) -> ManifestRow
    ensures { result ≡ united_row new_row segments name borrows seq }
{
    let tree = TreeRow {
        view: None,
        sst: None,
        l0: Window { first: 0, count: 0 },
        compacted: Window { first: 0, count: 0 },
    };
    united_row(tree, segments, name, borrows, seq)
}

// Lays the union at the front of the tables; its unsegmented tree is the new one. `left` is the number of its runs.
fn put_prefixed(
    sources: &[u64],
    order: &[u64],
    n: usize,
    prefixes: &[u64],
    np: usize,
    name: Place,
    left: usize,
    segments: &[u64],
    views: &[u64],
    runs: &[u64],
    pool: &[u8],
    groups: &[u64],
    count: usize,
    sets: &[u64],
    fresh: &[u64],
    seq: u64,
    shares: &mut [u64],
    out_segments: &mut [u64],
    out_views: &mut [u64],
    out_runs: &mut [u64],
    out_borrows: &mut [u64],
    out_ids: &mut [u64],
    out_pool: &mut [u8],
) -> ManifestRow
    requires n_in_bounds { n * 7 ≤ length order.now }
    requires n_in_bounds_2 { n * 7 ≤ length shares.old }
    requires np_in_bounds { np * 2 ≤ length prefixes.now }
    requires count_in_bounds { count * 6 ≤ length groups.now }
    requires left_value { left ≡ (sum segment_fill (named_segments segments.now views.now runs.now pool.now sources.now order.now n prefixes.now np)).runs }
    requires out_pool_value { fits (named_fill (named_segments segments.now views.now runs.now pool.now sources.now order.now n prefixes.now np) (bytes_in pool.now name) (members_in groups.now sets.now pool.now count)) (room_of (record { segments = out_segments.old; views = out_views.old; runs = out_runs.old; borrows = out_borrows.old; ids = out_ids.old; pool = out_pool.old })) ≡ true }
    ensures value { result ≡ manifest_row (named_union (named_segments segments.now views.now runs.now pool.now sources.now order.now n prefixes.now np) (bytes_in pool.now name) seq (lent_from (uuids_of fresh.now) 0 (members_in groups.now sets.now pool.now count))) }
    ensures out_segments_after { out_segments.new ≡ over out_segments.old (layout (named_union (named_segments segments.now views.now runs.now pool.now sources.now order.now n prefixes.now np) (bytes_in pool.now name) seq (lent_from (uuids_of fresh.now) 0 (members_in groups.now sets.now pool.now count)))).segments }
    ensures out_views_after { out_views.new ≡ over out_views.old (layout (named_union (named_segments segments.now views.now runs.now pool.now sources.now order.now n prefixes.now np) (bytes_in pool.now name) seq (lent_from (uuids_of fresh.now) 0 (members_in groups.now sets.now pool.now count)))).views }
    ensures out_runs_after { out_runs.new ≡ over out_runs.old (layout (named_union (named_segments segments.now views.now runs.now pool.now sources.now order.now n prefixes.now np) (bytes_in pool.now name) seq (lent_from (uuids_of fresh.now) 0 (members_in groups.now sets.now pool.now count)))).runs }
    ensures out_borrows_after { out_borrows.new ≡ over out_borrows.old (layout (named_union (named_segments segments.now views.now runs.now pool.now sources.now order.now n prefixes.now np) (bytes_in pool.now name) seq (lent_from (uuids_of fresh.now) 0 (members_in groups.now sets.now pool.now count)))).borrows }
    ensures out_ids_after { out_ids.new ≡ over out_ids.old (layout (named_union (named_segments segments.now views.now runs.now pool.now sources.now order.now n prefixes.now np) (bytes_in pool.now name) seq (lent_from (uuids_of fresh.now) 0 (members_in groups.now sets.now pool.now count)))).ids }
    ensures out_pool_after { out_pool.new ≡ over out_pool.old (layout (named_union (named_segments segments.now views.now runs.now pool.now sources.now order.now n prefixes.now np) (bytes_in pool.now name) seq (lent_from (uuids_of fresh.now) 0 (members_in groups.now sets.now pool.now count)))).pool }
{
    let c = no_fill();
    let at = put_named(
        sources,
        order,
        n,
        prefixes,
        np,
        left,
        segments,
        views,
        runs,
        pool,
        shares,
        out_segments,
        out_runs,
        out_views,
        out_pool,
        c,
    );
    let row = put_rest(
        name,
        pool,
        groups,
        count,
        sets,
        fresh,
        out_borrows,
        out_ids,
        out_pool,
        at,
    );
    segmented_row(at.segments, row, count, seq)
}

// The refusals 4 and 16, then the union with an extractor is laid. Whether each borrow has a final checkpoint was asked before. `shares` is working memory.
// inner
pub fn given_named(
    lim: Limits,
    sources: &[u64],
    order: &[u64],
    n: usize,
    prefixes: &[u64],
    np: usize,
    name: Place,
    segments: &[u64],
    views: &[u64],
    runs: &[u64],
    pool: &[u8],
    groups: &[u64],
    count: usize,
    sets: &[u64],
    fresh: &[u64],
    seq: u64,
    shares: &mut [u64],
    out_segments: &mut [u64],
    out_views: &mut [u64],
    out_runs: &mut [u64],
    out_borrows: &mut [u64],
    out_ids: &mut [u64],
    out_pool: &mut [u8],
) -> Result<ManifestRow, Refusal>
    requires n_in_bounds { n * 7 ≤ length order.now }
    requires n_in_bounds_2 { n * 7 ≤ length shares.old }
    requires np_in_bounds { np * 2 ≤ length prefixes.now }
    requires count_in_bounds { count * 6 ≤ length groups.now }
    ensures { record { answer = result; out = record { segments = out_segments.new; views = out_views.new; runs = out_runs.new; borrows = out_borrows.new; ids = out_ids.new; pool = out_pool.new } } ≡ union_to lim [] (uuids_of fresh.now) (assembled new_tree (segments_at (tree_tables segments.now views.now runs.now pool.now) sources.now (begins order.now n) (places_in prefixes.now pool.now np)) (named (bytes_in pool.now name)) seq (lent_from (uuids_of fresh.now) 0 (members_in groups.now sets.now pool.now count))) (record { segments = out_segments.old; views = out_views.old; runs = out_runs.old; borrows = out_borrows.old; ids = out_ids.old; pool = out_pool.old }) }
{
    let f = measure_prefixed(
        lim.fill, sources, order, n, prefixes, np, name, segments, views, runs, pool, groups,
        count, sets, shares,
    )
    .ok_or(Refusal::NoRoom)?;
    let room = Fill {
        segments: out_segments.len() / 12,
        views: out_views.len() / 16,
        runs: out_runs.len() / 3,
        borrows: out_borrows.len() / 9,
        ids: out_ids.len() / 2,
        bytes: out_pool.len(),
    };
    if !fits_in(f, room) {
        return Err(Refusal::NoRoom);
    }
    if fresh.len() / 2 < count {
        return Err(Refusal::TooFewFresh);
    }
    Ok(put_prefixed(
        sources,
        order,
        n,
        prefixes,
        np,
        name,
        f.runs,
        segments,
        views,
        runs,
        pool,
        groups,
        count,
        sets,
        fresh,
        seq,
        shares,
        out_segments,
        out_views,
        out_runs,
        out_borrows,
        out_ids,
        out_pool,
    ))
}
