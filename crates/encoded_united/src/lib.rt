// What comes of sources that were read: united into the tables of the result and written, or why not. A refused call leaves the lent output
// as it was.
#![tactic(auto)]

ghost use Rattle.std.specs.Prelude.{◌≡◌, true, false, ◌+◌, ◌-◌, ◌*◌, ◌/◌, ◌≤◌, ltb, length, replicate};
ghost use Rattle.records.specs.Fill.{fits};
ghost use Rattle.records.specs.Decode.{manifest_in, lent_of};
ghost use Rattle.copy.specs.Copy.{room_of};
ghost use Rattle.borrows.specs.Clone.{uuids_of};
ghost use Rattle.unite_sources.specs.Rows.{sources_in};
ghost use Rattle.unite_judge.specs.Judging.{most_sources, sources_judged};
ghost use Rattle.manifest_write.specs.Bytes.{manifest_bytes};
ghost use Rattle.manifest_rows.specs.Stored.{lent};
ghost use Rattle.encoded_borrows.specs.Clone.{fresh_put};
ghost use Rattle.encoded_union.specs.Union.{union_of};
ghost use Rattle.encoded_united.specs.Lists.{own_short};
ghost use Rattle.encoded_united.specs.Steps.{lent_words};

use encoded::least;
use encoded_borrows::write_clone;
use records::{Fill, Limits, ManifestRow, Refusal, Tables};
use tables::put;
use unite_all::union_judged;

// The words of the union's own lists, for eight sources within document 01's limits: two for each prefix of a segment ..
pub const PREFIXES: usize = 1024;
// .. two for each id of one source's views ..
pub const OWNED: usize = 1024;
// .. and six for each group of borrows, of which each source has one more than it has borrows.
pub const GROUPS: usize = 1584;

// ---- the result

// Writes zeros over all words.
fn clear(out: &mut [u64])
    ensures { out.new ≡ replicate (length out.old) 0 }
{
    out.fill(0);
}

// Lends the fresh UUIDs on, with zeros behind them.
fn lend_fresh(fresh: &[u64], lent_fresh: &mut [u64])
    requires { length fresh.now ≤ length lent_fresh.old }
    ensures { lent_fresh.new ≡ lent_words fresh.now (length lent_fresh.old) }
{
    clear(lent_fresh);
    let n = fresh.len() / 2 * 2;
    put(&fresh[..n], lent_fresh, 0);
}

// Writes the union that was laid, or says why not: its length is judged before the number of fresh UUIDs, of which `given` words were lent.
fn write_union(
    tables: Tables,
    m: ManifestRow,
    given: usize,
    out: &mut [u8],
) -> Result<usize, Refusal>
    ensures { record { answer = result; out = out.new } ≡ fresh_put (ltb (given / 2) m.external_dbs.count) (manifest_bytes (manifest_in (lent_of tables.entry) m)) out.old }
{
    let few = given / 2 < m.external_dbs.count;
    write_clone(tables, m, few, out)
}

// Unites sources that were read, with lists of its own, into tables that leave just the room there is, and writes the union.
fn union_into(
    lim: Limits,
    rows: &[u64],
    n: usize,
    all_segments: &[u64],
    all_views: &[u64],
    all_runs: &[u64],
    all_borrows: &[u64],
    all_ids: &[u64],
    all_pool: &[u8],
    fresh: &[u64],
    lent_fresh: &[u64],
    sets: &mut [u64],
    to_segments: &mut [u64],
    to_views: &mut [u64],
    to_runs: &mut [u64],
    to_borrows: &mut [u64],
    to_ids: &mut [u64],
    to_pool: &mut [u8],
    out: &mut [u8],
) -> Result<usize, Refusal>
    requires n_le_most_sources { (n ≤ most_sources) × (n * 22 ≤ length rows.now) × (sources_judged lim (lent all_segments.now all_views.now all_runs.now all_borrows.now all_ids.now all_pool.now) rows.now n ≡ Ok tt) × (own_short lim (length sets.old) ≡ false) }
    requires lent_fresh_value { (lent_fresh.now ≡ lent_words fresh.now (length lent_fresh.now)) × (lim.fill.borrows ≤ length lent_fresh.now / 2) }
    ensures { record { answer = result; out = out.new } ≡ union_of lim (room_of (lent to_segments.old to_views.old to_runs.old to_borrows.old to_ids.old to_pool.old)) out.old (sources_in (lent all_segments.now all_views.now all_runs.now all_borrows.now all_ids.now all_pool.now) rows.now n) (uuids_of fresh.now) }
{
    let mut prefixes = [0u64; PREFIXES];
    let mut owned = [0u64; OWNED];
    let mut groups = [0u64; GROUPS];
    let m = union_judged(
        lim,
        rows,
        n,
        Tables {
            segments: all_segments,
            views: all_views,
            runs: all_runs,
            borrows: all_borrows,
            ids: all_ids,
            pool: all_pool,
        },
        lent_fresh,
        &mut prefixes,
        &mut owned,
        &mut groups,
        sets,
        to_segments,
        to_views,
        to_runs,
        to_borrows,
        to_ids,
        to_pool,
    )?;
    write_union(
        Tables {
            segments: to_segments,
            views: to_views,
            runs: to_runs,
            borrows: to_borrows,
            ids: to_ids,
            pool: to_pool,
        },
        m,
        fresh.len(),
        out,
    )
}

// Unites into the part of the result tables that the room and L1 leave. They have room for any manifest within L1.
fn union_within(
    lim: Limits,
    rows: &[u64],
    n: usize,
    all_segments: &[u64],
    all_views: &[u64],
    all_runs: &[u64],
    all_borrows: &[u64],
    all_ids: &[u64],
    all_pool: &[u8],
    fresh: &[u64],
    lent_fresh: &[u64],
    room: Fill,
    sets: &mut [u64],
    to_segments: &mut [u64],
    to_views: &mut [u64],
    to_runs: &mut [u64],
    to_borrows: &mut [u64],
    to_ids: &mut [u64],
    to_pool: &mut [u8],
    out: &mut [u8],
) -> Result<usize, Refusal>
    requires n_le_most_sources { (n ≤ most_sources) × (n * 22 ≤ length rows.now) × (sources_judged lim (lent all_segments.now all_views.now all_runs.now all_borrows.now all_ids.now all_pool.now) rows.now n ≡ Ok tt) × (own_short lim (length sets.old) ≡ false) }
    requires lent_fresh_value { (lent_fresh.now ≡ lent_words fresh.now (length lent_fresh.now)) × (lim.fill.borrows ≤ length lent_fresh.now / 2) }
    requires segments_in_bounds { (lim.fill.segments * 12 ≤ length to_segments.old) × (lim.fill.views * 16 ≤ length to_views.old) × (lim.fill.runs * 3 ≤ length to_runs.old) × (lim.fill.borrows * 9 ≤ length to_borrows.old) × (lim.fill.ids * 2 ≤ length to_ids.old) × (lim.fill.bytes ≤ length to_pool.old) }
    ensures { record { answer = result; out = out.new } ≡ union_of lim room out.old (sources_in (lent all_segments.now all_views.now all_runs.now all_borrows.now all_ids.now all_pool.now) rows.now n) (uuids_of fresh.now) }
{
    let most = lim.fill;
    let a = least(most.segments, room.segments) * 12;
    let b = least(most.views, room.views) * 16;
    let d = least(most.runs, room.runs) * 3;
    let e = least(most.borrows, room.borrows) * 9;
    let f = least(most.ids, room.ids) * 2;
    let g = least(most.bytes, room.bytes);
    union_into(
        lim,
        rows,
        n,
        all_segments,
        all_views,
        all_runs,
        all_borrows,
        all_ids,
        all_pool,
        fresh,
        lent_fresh,
        sets,
        &mut to_segments[..a],
        &mut to_views[..b],
        &mut to_runs[..d],
        &mut to_borrows[..e],
        &mut to_ids[..f],
        &mut to_pool[..g],
        out,
    )
}

// Lends the fresh UUIDs on with others behind them, so that the union is laid and its length known before there are too few.
// inner
pub fn union_lent(
    lim: Limits,
    rows: &[u64],
    n: usize,
    all_segments: &[u64],
    all_views: &[u64],
    all_runs: &[u64],
    all_borrows: &[u64],
    all_ids: &[u64],
    all_pool: &[u8],
    fresh: &[u64],
    lent_fresh: &mut [u64],
    room: Fill,
    sets: &mut [u64],
    to_segments: &mut [u64],
    to_views: &mut [u64],
    to_runs: &mut [u64],
    to_borrows: &mut [u64],
    to_ids: &mut [u64],
    to_pool: &mut [u8],
    out: &mut [u8],
) -> Result<usize, Refusal>
    requires n_le_most_sources { (n ≤ most_sources) × (n * 22 ≤ length rows.now) × (sources_judged lim (lent all_segments.now all_views.now all_runs.now all_borrows.now all_ids.now all_pool.now) rows.now n ≡ Ok tt) × (own_short lim (length sets.old) ≡ false) }
    requires borrows_in_bounds { length fresh.now + lim.fill.borrows * 2 ≤ length lent_fresh.old }
    requires to_pool_value { fits lim.fill (room_of (lent to_segments.old to_views.old to_runs.old to_borrows.old to_ids.old to_pool.old)) ≡ true }
    ensures { record { answer = result; out = out.new } ≡ union_of lim room out.old (sources_in (lent all_segments.now all_views.now all_runs.now all_borrows.now all_ids.now all_pool.now) rows.now n) (uuids_of fresh.now) }
{
    lend_fresh(fresh, lent_fresh);
    union_within(
        lim,
        rows,
        n,
        all_segments,
        all_views,
        all_runs,
        all_borrows,
        all_ids,
        all_pool,
        fresh,
        lent_fresh,
        room,
        sets,
        to_segments,
        to_views,
        to_runs,
        to_borrows,
        to_ids,
        to_pool,
        out,
    )
}
