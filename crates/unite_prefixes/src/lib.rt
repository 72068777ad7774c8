// The union with an extractor: the refusals 14, 12 and 15, then 4 and 16, then the union laid. The used sources stand in order in rows of seven
// words, the first the word at which the source's own row begins.
#![tactic(auto)]

ghost use Rattle.std.specs.Prelude.{◌≡◌, true, [], map, ◌+◌, ◌*◌, ◌≤◌, length};
ghost use Rattle.borrows.specs.Clone.{uuids_of};
ghost use Rattle.records.specs.Model.{named};
ghost use Rattle.records.specs.New.{new_tree};
ghost use Rattle.records.specs.Decode.{bytes_in, lent_of};
ghost use Rattle.unite_sources.specs.Prefixed.{all_prefixes, segments_of};
ghost use Rattle.unite_sources.specs.Rows.{source_at_word, begins, places_in};
ghost use Rattle.unite_named.specs.Named.{overlap_at, tree_tables};
ghost use Rattle.unite_judge.specs.Judging.{most_sources};
ghost use Rattle.unite_lend.specs.Used.{sound_below};
ghost use Rattle.unite.specs.United.{borrows_united, assembled};
ghost use Rattle.unite.specs.Answer.{union_to};
ghost use Rattle.unite_plain.specs.By.{used_in, union_by};

use records::{Limits, ManifestRow, Place, Refusal, Tables};
use unite_lend::used_lack_final;
use unite_named::first_overlap;
use unite_plain::group_used;
use unite_segments::given_named;
use unite_sources::{all_prefixes, prefixes_nest};

// ---- 4, 16, and the union

// The members are grouped and the union is laid. Whether it is fit for that was asked before. `owned`, `groups` and `sets` are working memory.
fn grouped_named(
    lim: Limits,
    sources: &[u64],
    order: &[u64],
    n: usize,
    prefixes: &[u64],
    np: usize,
    name: Place,
    tables: Tables,
    fresh: &[u64],
    seq: u64,
    owned: &mut [u64],
    groups: &mut [u64],
    sets: &mut [u64],
    out_segments: &mut [u64],
    out_views: &mut [u64],
    out_runs: &mut [u64],
    out_borrows: &mut [u64],
    out_ids: &mut [u64],
    out_pool: &mut [u8],
) -> Result<ManifestRow, Refusal>
    requires n_le_most_sources { n ≤ most_sources }
    requires n_in_bounds { n * 7 ≤ length order.now }
    requires n_value { sound_below lim (lent_of tables) sources.now order.now n ≡ true }
    requires views_in_bounds { lim.fill.views * 2 ≤ length owned.old }
    requires borrows_in_bounds { most_sources * (lim.fill.borrows + 1) * 6 ≤ length groups.old }
    requires views_in_bounds_2 { most_sources * (lim.fill.ids + lim.fill.views) * 2 ≤ length sets.old }
    requires np_in_bounds { np * 2 ≤ length prefixes.now }
    requires np_value { places_in prefixes.now tables.pool.now np ≡ all_prefixes (map (source_at_word (lent_of tables) sources.now) (begins order.now n)) }
    ensures { record { answer = result; out = record { segments = out_segments.new; views = out_views.new; runs = out_runs.new; borrows = out_borrows.new; ids = out_ids.new; pool = out_pool.new } } ≡ union_to lim [] (uuids_of fresh.now) (assembled new_tree (segments_of (map (source_at_word (lent_of tables.entry) sources.now) (begins order.now n)) (all_prefixes (map (source_at_word (lent_of tables.entry) sources.now) (begins order.now n)))) (named (bytes_in tables.entry.pool.now name)) seq (borrows_united (map (source_at_word (lent_of tables.entry) sources.now) (begins order.now n)) (uuids_of fresh.now))) (record { segments = out_segments.old; views = out_views.old; runs = out_runs.old; borrows = out_borrows.old; ids = out_ids.old; pool = out_pool.old }) }
{
    let count = group_used(lim, sources, order, n, tables, owned, groups, sets);
    let mut shares = [0u64; 56];
    given_named(
        lim,
        sources,
        order,
        n,
        prefixes,
        np,
        name,
        tables.segments,
        tables.views,
        tables.runs,
        tables.pool,
        groups,
        count,
        sets,
        fresh,
        seq,
        &mut shares,
        out_segments,
        out_views,
        out_runs,
        out_borrows,
        out_ids,
        out_pool,
    )
}

// ---- 14, 12, 15

// How many of the first `np` prefixes stand before the first at which shares overlap; all where they do nowhere.
fn overlap_place(
    sources: &[u64],
    order: &[u64],
    n: usize,
    prefixes: &[u64],
    np: usize,
    segments: &[u64],
    views: &[u64],
    runs: &[u64],
    pool: &[u8],
) -> usize
    requires n_le_most_sources { n ≤ most_sources }
    requires n_in_bounds { n * 7 ≤ length order.now }
    requires np_in_bounds { np * 2 ≤ length prefixes.now }
    ensures { result ≡ overlap_at (tree_tables segments.now views.now runs.now pool.now) sources.now (begins order.now n) (places_in prefixes.now pool.now np) }
{
    let mut shares = [0u64; 56];
    first_overlap(
        sources,
        order,
        n,
        prefixes,
        np,
        segments,
        views,
        runs,
        pool,
        &mut shares,
    )
}

// The union of used sources whose prefixes are the first `np`.
fn fit_named(
    lim: Limits,
    sources: &[u64],
    order: &[u64],
    n: usize,
    prefixes: &[u64],
    np: usize,
    name: Place,
    tables: Tables,
    fresh: &[u64],
    seq: u64,
    owned: &mut [u64],
    groups: &mut [u64],
    sets: &mut [u64],
    out_segments: &mut [u64],
    out_views: &mut [u64],
    out_runs: &mut [u64],
    out_borrows: &mut [u64],
    out_ids: &mut [u64],
    out_pool: &mut [u8],
) -> Result<ManifestRow, Refusal>
    requires n_le_most_sources { n ≤ most_sources }
    requires n_in_bounds { n * 7 ≤ length order.now }
    requires n_value { sound_below lim (lent_of tables) sources.now order.now n ≡ true }
    requires views_in_bounds { lim.fill.views * 2 ≤ length owned.old }
    requires borrows_in_bounds { most_sources * (lim.fill.borrows + 1) * 6 ≤ length groups.old }
    requires views_in_bounds_2 { most_sources * (lim.fill.ids + lim.fill.views) * 2 ≤ length sets.old }
    requires np_in_bounds { np * 2 ≤ length prefixes.now }
    requires np_value { places_in prefixes.now tables.pool.now np ≡ all_prefixes (map (source_at_word (lent_of tables) sources.now) (begins order.now n)) }
    ensures { record { answer = result; out = record { segments = out_segments.new; views = out_views.new; runs = out_runs.new; borrows = out_borrows.new; ids = out_ids.new; pool = out_pool.new } } ≡ union_by lim (named (bytes_in tables.entry.pool.now name)) (used_in (lent_of tables.entry) sources.now order.now n) seq (uuids_of fresh.now) (record { segments = out_segments.old; views = out_views.old; runs = out_runs.old; borrows = out_borrows.old; ids = out_ids.old; pool = out_pool.old }) }
{
    if prefixes_nest(prefixes, np, tables.pool) {
        return Err(Refusal::SourcesNest);
    }
    let k = overlap_place(
        sources,
        order,
        n,
        prefixes,
        np,
        tables.segments,
        tables.views,
        tables.runs,
        tables.pool,
    );
    if k < np {
        return Err(Refusal::Overlap(k + 1));
    }
    if used_lack_final(sources, order, n, tables.borrows) {
        return Err(Refusal::NoFinal);
    }
    grouped_named(
        lim,
        sources,
        order,
        n,
        prefixes,
        np,
        name,
        tables,
        fresh,
        seq,
        owned,
        groups,
        sets,
        out_segments,
        out_views,
        out_runs,
        out_borrows,
        out_ids,
        out_pool,
    )
}

// ---- the union

// The union with an extractor of that name of the first `n` used sources in order. `prefixes`, `owned`, `groups` and `sets` are working memory.
// inner
pub fn union_named(
    lim: Limits,
    sources: &[u64],
    order: &[u64],
    n: usize,
    name: Place,
    tables: Tables,
    fresh: &[u64],
    seq: u64,
    prefixes: &mut [u64],
    owned: &mut [u64],
    groups: &mut [u64],
    sets: &mut [u64],
    out_segments: &mut [u64],
    out_views: &mut [u64],
    out_runs: &mut [u64],
    out_borrows: &mut [u64],
    out_ids: &mut [u64],
    out_pool: &mut [u8],
) -> Result<ManifestRow, Refusal>
    requires n_le_most_sources { n ≤ most_sources }
    requires n_in_bounds { n * 7 ≤ length order.now }
    requires n_value { sound_below lim (lent_of tables) sources.now order.now n ≡ true }
    requires views_in_bounds { lim.fill.views * 2 ≤ length owned.old }
    requires borrows_in_bounds { most_sources * (lim.fill.borrows + 1) * 6 ≤ length groups.old }
    requires views_in_bounds_2 { most_sources * (lim.fill.ids + lim.fill.views) * 2 ≤ length sets.old }
    requires segments_in_bounds { most_sources * lim.fill.segments * 2 ≤ length prefixes.old }
    ensures { record { answer = result; out = record { segments = out_segments.new; views = out_views.new; runs = out_runs.new; borrows = out_borrows.new; ids = out_ids.new; pool = out_pool.new } } ≡ union_by lim (named (bytes_in tables.entry.pool.now name)) (used_in (lent_of tables.entry) sources.now order.now n) seq (uuids_of fresh.now) (record { segments = out_segments.old; views = out_views.old; runs = out_runs.old; borrows = out_borrows.old; ids = out_ids.old; pool = out_pool.old }) }
{
    let np = all_prefixes(
        sources,
        order,
        n,
        tables.segments,
        tables.pool,
        lim.fill.segments,
        prefixes,
    );
    fit_named(
        lim,
        sources,
        order,
        n,
        prefixes,
        np,
        name,
        tables,
        fresh,
        seq,
        owned,
        groups,
        sets,
        out_segments,
        out_views,
        out_runs,
        out_borrows,
        out_ids,
        out_pool,
    )
}
