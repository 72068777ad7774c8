// Union: up to eight sources in one set of lent tables.
#![tactic(auto)]

ghost use Rattle.std.specs.Prelude.{◌≡◌, ◌+◌, ◌/◌, ◌*◌, ◌≤◌, length, true, []};
ghost use Rattle.borrows.specs.Clone.{uuids_of};
ghost use Rattle.tables.specs.Layout.{over};
ghost use Rattle.records.specs.Model.{none};
ghost use Rattle.records.specs.Fill.{empty, plus, sum, tree_fill};
ghost use Rattle.records.specs.Layout.{manifest_row, layout};
ghost use Rattle.measure.specs.Walk.{add_of};
ghost use Rattle.unite_trees.specs.Joined.{joined_tree};
ghost use Rattle.unite_trees.specs.Rows.{trees_in};
ghost use Rattle.unite_groups.specs.Chosen.{lent_from, member_fill};
ghost use Rattle.unite_groups.specs.Rows.{members_in};
ghost use Rattle.unite.specs.United.{assembled};
ghost use Rattle.unite.specs.Answer.{union_to};
ghost use Rattle.unite.specs.Steps.{united_row};

use measure::fits_in;
use records::{Fill, Limits, ManifestRow, Place, Refusal, TreeRow};
use tables::Window;
use unite_groups::{measure_groups, put_groups};
use unite_trees::{measure_joined, put_joined};

// ---- without an extractor

// inner
pub fn no_fill() -> Fill
    ensures { result ≡ empty }
{
    Fill {
        segments: 0,
        views: 0,
        runs: 0,
        borrows: 0,
        ids: 0,
        bytes: 0,
    }
}

// What the joined unsegmented trees and the first `count` groups fill, where it is at most `most`.
// inner
pub fn measure_plain(
    most: Fill,
    sources: &[u64],
    order: &[u64],
    n: usize,
    runs: &[u64],
    views: &[u64],
    pool: &[u8],
    groups: &[u64],
    count: usize,
    sets: &[u64],
) -> Option<Fill>
    requires n_in_bounds { n * 7 ≤ length order.now }
    requires count_in_bounds { count * 6 ≤ length groups.now }
    ensures { result ≡ add_of most empty (plus (tree_fill (joined_tree (trees_in sources.now order.now n runs.now views.now pool.now))) (sum member_fill (members_in groups.now sets.now pool.now count))) }
{
    let c = no_fill();
    let d = measure_joined(most, sources, order, n, runs, views, pool, c)?;
    measure_groups(most, groups, count, sets, pool, d)
}

// The row of a union whose records were laid at the front of the tables: all but these is the new manifest's.
// inner
pub fn united_row(
    tree: TreeRow,
    segments: usize,
    name: Option<Place>,
    borrows: usize,
    seq: u64,
) -> ManifestRow
    ensures { result ≡ united_row tree segments name borrows seq }
{
    let s = Window {
        first: 0,
        count: segments,
    };
    let b = Window {
        first: 0,
        count: borrows,
    };
    ManifestRow {
        initialized: true,
        tree,
        segments: s,
        segment_extractor_name: name,
        next_wal_sst_id: 1,
        replay_after_wal_id: 0,
        last_l0_clock_tick: -9223372036854775808,
        last_l0_seq: seq,
        recent_snapshot_min_seq: 0,
        external_dbs: b,
        writer_epoch: 0,
        compactor_epoch: 0,
    }
}

// Lays the union at the front of the tables; its segments are none. `left` is the number of its runs.
// inner
pub fn put_plain(
    sources: &[u64],
    order: &[u64],
    n: usize,
    left: usize,
    runs: &[u64],
    views: &[u64],
    pool: &[u8],
    groups: &[u64],
    count: usize,
    sets: &[u64],
    fresh: &[u64],
    seq: u64,
    out_views: &mut [u64],
    out_runs: &mut [u64],
    out_borrows: &mut [u64],
    out_ids: &mut [u64],
    out_pool: &mut [u8],
) -> ManifestRow
    requires n_in_bounds { n * 7 ≤ length order.now }
    requires count_in_bounds { count * 6 ≤ length groups.now }
    requires left_value { left ≡ (tree_fill (joined_tree (trees_in sources.now order.now n runs.now views.now pool.now))).runs }
    requires pool_in_bounds { (tree_fill (joined_tree (trees_in sources.now order.now n runs.now views.now pool.now))).runs * 3 ≤ length out_runs.old }
    requires pool_in_bounds_2 { (tree_fill (joined_tree (trees_in sources.now order.now n runs.now views.now pool.now))).views * 16 ≤ length out_views.old }
    requires count_in_bounds_2 { (sum member_fill (members_in groups.now sets.now pool.now count)).borrows * 9 ≤ length out_borrows.old }
    requires count_in_bounds_3 { (sum member_fill (members_in groups.now sets.now pool.now count)).ids * 2 ≤ length out_ids.old }
    requires count_in_bounds_4 { (tree_fill (joined_tree (trees_in sources.now order.now n runs.now views.now pool.now))).bytes + (sum member_fill (members_in groups.now sets.now pool.now count)).bytes ≤ length out_pool.old }
    ensures value { result ≡ manifest_row (assembled (joined_tree (trees_in sources.now order.now n runs.now views.now pool.now)) [] none seq (lent_from (uuids_of fresh.now) 0 (members_in groups.now sets.now pool.now count))) }
    ensures out_views_after { out_views.new ≡ over out_views.old (layout (assembled (joined_tree (trees_in sources.now order.now n runs.now views.now pool.now)) [] none seq (lent_from (uuids_of fresh.now) 0 (members_in groups.now sets.now pool.now count)))).views }
    ensures out_runs_after { out_runs.new ≡ over out_runs.old (layout (assembled (joined_tree (trees_in sources.now order.now n runs.now views.now pool.now)) [] none seq (lent_from (uuids_of fresh.now) 0 (members_in groups.now sets.now pool.now count)))).runs }
    ensures out_borrows_after { out_borrows.new ≡ over out_borrows.old (layout (assembled (joined_tree (trees_in sources.now order.now n runs.now views.now pool.now)) [] none seq (lent_from (uuids_of fresh.now) 0 (members_in groups.now sets.now pool.now count)))).borrows }
    ensures out_ids_after { out_ids.new ≡ over out_ids.old (layout (assembled (joined_tree (trees_in sources.now order.now n runs.now views.now pool.now)) [] none seq (lent_from (uuids_of fresh.now) 0 (members_in groups.now sets.now pool.now count)))).ids }
    ensures out_pool_after { out_pool.new ≡ over out_pool.old (layout (assembled (joined_tree (trees_in sources.now order.now n runs.now views.now pool.now)) [] none seq (lent_from (uuids_of fresh.now) 0 (members_in groups.now sets.now pool.now count)))).pool }
{
    let c = no_fill();
    let laid = put_joined(
        sources, order, n, left, runs, views, pool, out_runs, out_views, out_pool, c,
    );
    let tree = laid.tree;
    let at = laid.past;
    put_groups(
        groups,
        count,
        sets,
        pool,
        fresh,
        out_borrows,
        out_ids,
        out_pool,
        at,
    );
    united_row(tree, 0, None, count, seq)
}

// The refusals 4 and 16, then the union without an extractor is laid. Whether each borrow has a final checkpoint was asked before.
// inner
pub fn given_plain(
    lim: Limits,
    sources: &[u64],
    order: &[u64],
    n: usize,
    runs: &[u64],
    views: &[u64],
    pool: &[u8],
    groups: &[u64],
    count: usize,
    sets: &[u64],
    fresh: &[u64],
    seq: u64,
    out_segments: &mut [u64],
    out_views: &mut [u64],
    out_runs: &mut [u64],
    out_borrows: &mut [u64],
    out_ids: &mut [u64],
    out_pool: &mut [u8],
) -> Result<ManifestRow, Refusal>
    requires n_in_bounds { n * 7 ≤ length order.now }
    requires count_in_bounds { count * 6 ≤ length groups.now }
    ensures { record { answer = result; out = record { segments = out_segments.new; views = out_views.new; runs = out_runs.new; borrows = out_borrows.new; ids = out_ids.new; pool = out_pool.new } } ≡ union_to lim [] (uuids_of fresh.now) (assembled (joined_tree (trees_in sources.now order.now n runs.now views.now pool.now)) [] none seq (lent_from (uuids_of fresh.now) 0 (members_in groups.now sets.now pool.now count))) (record { segments = out_segments.old; views = out_views.old; runs = out_runs.old; borrows = out_borrows.old; ids = out_ids.old; pool = out_pool.old }) }
{
    let f = measure_plain(
        lim.fill, sources, order, n, runs, views, pool, groups, count, sets,
    )
    .ok_or(Refusal::NoRoom)?;
    let room = Fill {
        segments: out_segments.len() / 12,
        views: out_views.len() / 16,
        runs: out_runs.len() / 3,
        borrows: out_borrows.len() / 9,
        ids: out_ids.len() / 2,
        bytes: out_pool.len(),
    };
    if !fits_in(f, room) {
        return Err(Refusal::NoRoom);
    }
    if fresh.len() / 2 < count {
        return Err(Refusal::TooFewFresh);
    }
    Ok(put_plain(
        sources,
        order,
        n,
        f.runs,
        runs,
        views,
        pool,
        groups,
        count,
        sets,
        fresh,
        seq,
        out_views,
        out_runs,
        out_borrows,
        out_ids,
        out_pool,
    ))
}
