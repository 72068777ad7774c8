// The whole union: sources and six lent tables in, the six output tables out.
#![tactic(auto)]

ghost use Rattle.std.specs.Prelude.{◌≡◌, true, false, ◌+◌, ◌*◌, ◌≤◌, length};
ghost use Rattle.records.specs.Decode.{name_in, lent_of};
ghost use Rattle.borrows.specs.Clone.{uuids_of};
ghost use Rattle.unite_sources.specs.Rows.{sources_in};
ghost use Rattle.unite_judge.specs.Judging.{most_sources, sources_judged, work_short};
ghost use Rattle.unite_lend.specs.Used.{sound_below};
ghost use Rattle.unite.specs.Answer.{union_given, union_in};
ghost use Rattle.unite_plain.specs.By.{used_in, union_by};

use records::{Limits, ManifestRow, Place, Refusal, Tables};
use unite_judge::{agreed_name, greatest_seq, some_path_over, sources_judged, work_short};
use unite_plain::union_plain;
use unite_prefixes::union_named;
use unite_sources::{arrange_sources, names_differ};

// The union of the first `n` used sources in order, by the name that all sources agree on.
fn union_by(
    lim: Limits,
    sources: &[u64],
    order: &[u64],
    n: usize,
    name: Option<Place>,
    tables: Tables,
    fresh: &[u64],
    seq: u64,
    prefixes: &mut [u64],
    owned: &mut [u64],
    groups: &mut [u64],
    sets: &mut [u64],
    out_segments: &mut [u64],
    out_views: &mut [u64],
    out_runs: &mut [u64],
    out_borrows: &mut [u64],
    out_ids: &mut [u64],
    out_pool: &mut [u8],
) -> Result<ManifestRow, Refusal>
    requires n_le_most_sources { n ≤ most_sources }
    requires n_in_bounds { n * 7 ≤ length order.now }
    requires n_value { sound_below lim (lent_of tables) sources.now order.now n ≡ true }
    requires views_in_bounds { lim.fill.views * 2 ≤ length owned.old }
    requires borrows_in_bounds { most_sources * (lim.fill.borrows + 1) * 6 ≤ length groups.old }
    requires views_in_bounds_2 { most_sources * (lim.fill.ids + lim.fill.views) * 2 ≤ length sets.old }
    requires segments_in_bounds { most_sources * lim.fill.segments * 2 ≤ length prefixes.old }
    ensures { record { answer = result; out = record { segments = out_segments.new; views = out_views.new; runs = out_runs.new; borrows = out_borrows.new; ids = out_ids.new; pool = out_pool.new } } ≡ union_by lim (name_in tables.entry.pool.now name) (used_in (lent_of tables.entry) sources.now order.now n) seq (uuids_of fresh.now) (record { segments = out_segments.old; views = out_views.old; runs = out_runs.old; borrows = out_borrows.old; ids = out_ids.old; pool = out_pool.old }) }
{
    match name {
        None => union_plain(
            lim,
            sources,
            order,
            n,
            tables,
            fresh,
            seq,
            owned,
            groups,
            sets,
            out_segments,
            out_views,
            out_runs,
            out_borrows,
            out_ids,
            out_pool,
        ),
        Some(p) => union_named(
            lim,
            sources,
            order,
            n,
            p,
            tables,
            fresh,
            seq,
            prefixes,
            owned,
            groups,
            sets,
            out_segments,
            out_views,
            out_runs,
            out_borrows,
            out_ids,
            out_pool,
        ),
    }
}

// The union of the first `n` sources, each lawful. Those with no views are set aside, the others arranged; the name and the greatest
// `last_l0_seq` are those of all. `prefixes`, `owned`, `groups` and `sets` are working memory.
// inner
pub fn union_judged(
    lim: Limits,
    sources: &[u64],
    n: usize,
    tables: Tables,
    fresh: &[u64],
    prefixes: &mut [u64],
    owned: &mut [u64],
    groups: &mut [u64],
    sets: &mut [u64],
    out_segments: &mut [u64],
    out_views: &mut [u64],
    out_runs: &mut [u64],
    out_borrows: &mut [u64],
    out_ids: &mut [u64],
    out_pool: &mut [u8],
) -> Result<ManifestRow, Refusal>
    requires n_le_most_sources { n ≤ most_sources }
    requires n_in_bounds { n * 22 ≤ length sources.now }
    requires n_value { sources_judged lim (lent_of tables) sources.now n ≡ Ok tt }
    requires sets_value { work_short lim (length prefixes.old) (length owned.old) (length groups.old) (length sets.old) ≡ false }
    ensures { record { answer = result; out = record { segments = out_segments.new; views = out_views.new; runs = out_runs.new; borrows = out_borrows.new; ids = out_ids.new; pool = out_pool.new } } ≡ union_given lim (sources_in (lent_of tables.entry) sources.now n) (uuids_of fresh.now) (record { segments = out_segments.old; views = out_views.old; runs = out_runs.old; borrows = out_borrows.old; ids = out_ids.old; pool = out_pool.old }) }
{
    if names_differ(sources, n, tables.pool) {
        return Err(Refusal::ExtractorsDiffer);
    }
    let mut order = [0u64; 56];
    let k = arrange_sources(
        sources,
        n,
        tables.segments,
        tables.runs,
        tables.views,
        tables.pool,
        &mut order,
    );
    let name = agreed_name(sources, n);
    let seq = greatest_seq(sources, n);
    union_by(
        lim,
        sources,
        &order,
        k,
        name,
        tables,
        fresh,
        seq,
        prefixes,
        owned,
        groups,
        sets,
        out_segments,
        out_views,
        out_runs,
        out_borrows,
        out_ids,
        out_pool,
    )
}

// The union of the sources whose rows of 22 words are lent, over the six tables. `prefixes`, `owned`, `groups` and `sets` are working memory.
pub fn cloned_from_union(
    lim: Limits,
    sources: &[u64],
    tables: Tables,
    fresh: &[u64],
    prefixes: &mut [u64],
    owned: &mut [u64],
    groups: &mut [u64],
    sets: &mut [u64],
    out_segments: &mut [u64],
    out_views: &mut [u64],
    out_runs: &mut [u64],
    out_borrows: &mut [u64],
    out_ids: &mut [u64],
    out_pool: &mut [u8],
) -> Result<ManifestRow, Refusal>
    ensures { record { answer = result; out = record { segments = out_segments.new; views = out_views.new; runs = out_runs.new; borrows = out_borrows.new; ids = out_ids.new; pool = out_pool.new } } ≡ union_in lim (lent_of tables.entry) sources.now fresh.now (work_short lim (length prefixes.old) (length owned.old) (length groups.old) (length sets.old)) (record { segments = out_segments.old; views = out_views.old; runs = out_runs.old; borrows = out_borrows.old; ids = out_ids.old; pool = out_pool.old }) }
{
    let n = sources.len() / 22;
    if 8 < n || some_path_over(lim.path, tables.pool.len(), sources, n) {
        return Err(Refusal::OverLimit);
    }
    if work_short(lim, prefixes.len(), owned.len(), groups.len(), sets.len()) {
        return Err(Refusal::NoRoom);
    }
    sources_judged(lim, sources, n, tables).map_err(Refusal::Unlawful)?;
    union_judged(
        lim,
        sources,
        n,
        tables,
        fresh,
        prefixes,
        owned,
        groups,
        sets,
        out_segments,
        out_views,
        out_runs,
        out_borrows,
        out_ids,
        out_pool,
    )
}
