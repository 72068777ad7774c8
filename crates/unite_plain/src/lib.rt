// The union of used sources in order without an extractor, and the borrows of every union, grouped. The used sources stand in rows of seven
// words, the first the word at which the source's own row begins.
#![tactic(auto)]

ghost use Rattle.std.specs.Prelude.{◌≡◌, true, [], map, ◌+◌, ◌*◌, ◌≤◌, length};
ghost use Rattle.records.specs.Decode.{lent_of};
ghost use Rattle.records.specs.Model.{none};
ghost use Rattle.borrows.specs.Clone.{uuids_of};
ghost use Rattle.unite_trees.specs.Joined.{joined_tree};
ghost use Rattle.unite_groups.specs.Groups.{grouped};
ghost use Rattle.unite_groups.specs.Chosen.{chosen_all};
ghost use Rattle.unite_groups.specs.Rows.{members_in};
ghost use Rattle.unite_sources.specs.Used.{own_trees};
ghost use Rattle.unite_sources.specs.Rows.{source_at_word, begins};
ghost use Rattle.unite_judge.specs.Judging.{most_sources};
ghost use Rattle.unite_lend.specs.Used.{sound_below};
ghost use Rattle.unite.specs.United.{members_of, supplies_of, borrows_united, assembled};
ghost use Rattle.unite.specs.Answer.{union_to};
ghost use Rattle.unite_plain.specs.By.{used_in, union_by};

use records::{Limits, ManifestRow, Refusal, Tables};
use unite::given_plain;
use unite_lend::{group_sources, put_supplies, used_lack_final, used_segmented};
use unite_ranges::ranges_overlap;

// The members of the first `n` used sources, grouped, each group with its checkpoint. It answers how many groups there are. `owned` is working memory.
// inner
pub fn group_used(
    lim: Limits,
    sources: &[u64],
    order: &[u64],
    n: usize,
    tables: Tables,
    owned: &mut [u64],
    groups: &mut [u64],
    sets: &mut [u64],
) -> usize
    requires n_le_most_sources { n ≤ most_sources }
    requires n_in_bounds { n * 7 ≤ length order.now }
    requires n_value { sound_below lim (lent_of tables) sources.now order.now n ≡ true }
    requires views_in_bounds { lim.fill.views * 2 ≤ length owned.old }
    requires borrows_in_bounds { most_sources * (lim.fill.borrows + 1) * 6 ≤ length groups.old }
    requires views_in_bounds_2 { most_sources * (lim.fill.ids + lim.fill.views) * 2 ≤ length sets.old }
    ensures result_after { members_in groups.new sets.new tables.entry.pool.now result ≡ chosen_all (supplies_of (map (source_at_word (lent_of tables.entry) sources.now) (begins order.now n))) (grouped (members_of (map (source_at_word (lent_of tables.entry) sources.now) (begins order.now n)))) }
    ensures result_in_bounds { result * 6 ≤ length groups.new }
{
    let mut supplies = [0u64; 32];
    put_supplies(sources, order, n, &mut supplies);
    group_sources(
        lim, sources, order, n, tables, &supplies, owned, groups, sets,
    )
}

// The refusals 4 and 16, or the union without an extractor. The refusals before these were asked.
fn grouped_plain(
    lim: Limits,
    sources: &[u64],
    order: &[u64],
    n: usize,
    tables: Tables,
    fresh: &[u64],
    seq: u64,
    owned: &mut [u64],
    groups: &mut [u64],
    sets: &mut [u64],
    out_segments: &mut [u64],
    out_views: &mut [u64],
    out_runs: &mut [u64],
    out_borrows: &mut [u64],
    out_ids: &mut [u64],
    out_pool: &mut [u8],
) -> Result<ManifestRow, Refusal>
    requires n_le_most_sources { n ≤ most_sources }
    requires n_in_bounds { n * 7 ≤ length order.now }
    requires n_value { sound_below lim (lent_of tables) sources.now order.now n ≡ true }
    requires views_in_bounds { lim.fill.views * 2 ≤ length owned.old }
    requires borrows_in_bounds { most_sources * (lim.fill.borrows + 1) * 6 ≤ length groups.old }
    requires views_in_bounds_2 { most_sources * (lim.fill.ids + lim.fill.views) * 2 ≤ length sets.old }
    ensures { record { answer = result; out = record { segments = out_segments.new; views = out_views.new; runs = out_runs.new; borrows = out_borrows.new; ids = out_ids.new; pool = out_pool.new } } ≡ union_to lim [] (uuids_of fresh.now) (assembled (joined_tree (own_trees (map (source_at_word (lent_of tables.entry) sources.now) (begins order.now n)))) [] none seq (borrows_united (map (source_at_word (lent_of tables.entry) sources.now) (begins order.now n)) (uuids_of fresh.now))) (record { segments = out_segments.old; views = out_views.old; runs = out_runs.old; borrows = out_borrows.old; ids = out_ids.old; pool = out_pool.old }) }
{
    let count = group_used(lim, sources, order, n, tables, owned, groups, sets);
    given_plain(
        lim,
        sources,
        order,
        n,
        tables.runs,
        tables.views,
        tables.pool,
        groups,
        count,
        sets,
        fresh,
        seq,
        out_segments,
        out_views,
        out_runs,
        out_borrows,
        out_ids,
        out_pool,
    )
}

// The union without an extractor of the first `n` used sources in order. `owned`, `groups` and `sets` are working memory.
// inner
pub fn union_plain(
    lim: Limits,
    sources: &[u64],
    order: &[u64],
    n: usize,
    tables: Tables,
    fresh: &[u64],
    seq: u64,
    owned: &mut [u64],
    groups: &mut [u64],
    sets: &mut [u64],
    out_segments: &mut [u64],
    out_views: &mut [u64],
    out_runs: &mut [u64],
    out_borrows: &mut [u64],
    out_ids: &mut [u64],
    out_pool: &mut [u8],
) -> Result<ManifestRow, Refusal>
    requires n_le_most_sources { n ≤ most_sources }
    requires n_in_bounds { n * 7 ≤ length order.now }
    requires n_value { sound_below lim (lent_of tables) sources.now order.now n ≡ true }
    requires views_in_bounds { lim.fill.views * 2 ≤ length owned.old }
    requires borrows_in_bounds { most_sources * (lim.fill.borrows + 1) * 6 ≤ length groups.old }
    requires views_in_bounds_2 { most_sources * (lim.fill.ids + lim.fill.views) * 2 ≤ length sets.old }
    ensures { record { answer = result; out = record { segments = out_segments.new; views = out_views.new; runs = out_runs.new; borrows = out_borrows.new; ids = out_ids.new; pool = out_pool.new } } ≡ union_by lim none (used_in (lent_of tables.entry) sources.now order.now n) seq (uuids_of fresh.now) (record { segments = out_segments.old; views = out_views.old; runs = out_runs.old; borrows = out_borrows.old; ids = out_ids.old; pool = out_pool.old }) }
{
    if ranges_overlap(order, n, tables.pool) {
        return Err(Refusal::Overlap(0));
    }
    if used_segmented(sources, order, n, tables.segments) {
        return Err(Refusal::SegmentsUnnamed);
    }
    if used_lack_final(sources, order, n, tables.borrows) {
        return Err(Refusal::NoFinal);
    }
    grouped_plain(
        lim,
        sources,
        order,
        n,
        tables,
        fresh,
        seq,
        owned,
        groups,
        sets,
        out_segments,
        out_views,
        out_runs,
        out_borrows,
        out_ids,
        out_pool,
    )
}
