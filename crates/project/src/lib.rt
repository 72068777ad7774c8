// Projection on lent tables: what is left of the trees is measured and the SST ids of its views are listed, then what is left of the borrows is
// measured, and then all is laid out.
#![tactic(auto)]

mod projected_laid;

ghost use Rattle.std.specs.Prelude.{◌≡◌, ◌*◌, ◌/◌, length};
ghost use Rattle.ids.specs.Names.{ids_of};
ghost use Rattle.records.specs.Decode.{manifest_in, lent_of};
ghost use Rattle.measure.specs.Within.{all_views, ids_used};
ghost use Rattle.lawful.specs.Judge.{judged_of};
ghost use Rattle.project_ranges.specs.Args.{config_in};
ghost use Rattle.project.specs.Project.{narrowed, with_used, projected_of};
ghost use Rattle.project.specs.Answer.{projected_to, projected_given, projected_in};
ghost use Rattle.project.specs.Steps.{body_fill, filled_to, listed_to};

use copy::canonical_copy;
use lawful::lawful;
use measure::fits_in;
use project_lay::{list_used, measure_narrowed};
use project_ranges::{
    ProjectionConfig, config_over, global_empty, highest_bit, is_noop, mask_over, names_count,
    own_fault,
};
use projected_laid::put_projected;
use prune::measure_pruned;
use records::{Fill, Limits, ManifestRow, Refusal, Tables};
use tables::held;

// ---- the answer

// The copy, where nothing is asked for.
fn give_copy(
    lim: Limits,
    tables: Tables,
    m: ManifestRow,
    names: usize,
    out_segments: &mut [u64],
    out_views: &mut [u64],
    out_runs: &mut [u64],
    out_borrows: &mut [u64],
    out_ids: &mut [u64],
    out_pool: &mut [u8],
) -> Result<(usize, ManifestRow), Refusal>
    requires { judged_of lim (lent_of tables) m ≡ Ok tt }
    ensures { record { answer = result; out = (record { segments = out_segments.new; views = out_views.new; runs = out_runs.new; borrows = out_borrows.new; ids = out_ids.new; pool = out_pool.new }) } ≡ filled_to lim names (manifest_in (lent_of tables.entry) m) (record { segments = out_segments.old; views = out_views.old; runs = out_runs.old; borrows = out_borrows.old; ids = out_ids.old; pool = out_pool.old }) }
{
    let row = canonical_copy(
        lim,
        tables,
        m,
        out_segments,
        out_views,
        out_runs,
        out_borrows,
        out_ids,
        out_pool,
    )?;
    Ok((names, row))
}

// What is left, whose trees and name fill `d`, and the SST ids of whose views are lent.
fn give_listed(
    lim: Limits,
    tables: Tables,
    m: ManifestRow,
    names: usize,
    config: ProjectionConfig,
    own: &[u64],
    used: &[u64],
    out_segments: &mut [u64],
    out_views: &mut [u64],
    out_runs: &mut [u64],
    out_borrows: &mut [u64],
    out_ids: &mut [u64],
    out_pool: &mut [u8],
    d: Fill,
) -> Result<(usize, ManifestRow), Refusal>
    requires used_value { ids_of used.now ≡ ids_used (all_views (narrowed (config_in tables.pool.now config own.now) (manifest_in (lent_of tables) m))) }
    requires d_value { d ≡ body_fill (narrowed (config_in tables.pool.now config own.now) (manifest_in (lent_of tables) m)) }
    ensures { record { answer = result; out = (record { segments = out_segments.new; views = out_views.new; runs = out_runs.new; borrows = out_borrows.new; ids = out_ids.new; pool = out_pool.new }) } ≡ filled_to lim names (with_used (narrowed (config_in tables.entry.pool.now config own.now) (manifest_in (lent_of tables.entry) m))) (record { segments = out_segments.old; views = out_views.old; runs = out_runs.old; borrows = out_borrows.old; ids = out_ids.old; pool = out_pool.old }) }
{
    let f = measure_pruned(
        lim.fill,
        tables.borrows,
        m.external_dbs,
        tables.ids,
        tables.pool,
        used,
        d,
    )
    .ok_or(Refusal::NoRoom)?;
    let room = Fill {
        segments: out_segments.len() / 12,
        views: out_views.len() / 16,
        runs: out_runs.len() / 3,
        borrows: out_borrows.len() / 9,
        ids: out_ids.len() / 2,
        bytes: out_pool.len(),
    };
    if !fits_in(f, room) {
        return Err(Refusal::NoRoom);
    }
    let none = Fill {
        segments: 0,
        views: 0,
        runs: 0,
        borrows: 0,
        ids: 0,
        bytes: 0,
    };
    let row = put_projected(
        tables,
        m,
        config,
        own,
        used,
        out_segments,
        out_views,
        out_runs,
        out_borrows,
        out_ids,
        out_pool,
        f,
        none,
    );
    Ok((names, row))
}

// What is left, where something is asked for.
fn give_narrowed(
    lim: Limits,
    tables: Tables,
    m: ManifestRow,
    names: usize,
    config: ProjectionConfig,
    own: &[u64],
    used: &mut [u64],
    out_segments: &mut [u64],
    out_views: &mut [u64],
    out_runs: &mut [u64],
    out_borrows: &mut [u64],
    out_ids: &mut [u64],
    out_pool: &mut [u8],
) -> Result<(usize, ManifestRow), Refusal>
    requires { judged_of lim (lent_of tables) m ≡ Ok tt }
    ensures { record { answer = result; out = (record { segments = out_segments.new; views = out_views.new; runs = out_runs.new; borrows = out_borrows.new; ids = out_ids.new; pool = out_pool.new }) } ≡ listed_to lim names (length used.old / 2) (with_used (narrowed (config_in tables.entry.pool.now config own.now) (manifest_in (lent_of tables.entry) m))) (record { segments = out_segments.old; views = out_views.old; runs = out_runs.old; borrows = out_borrows.old; ids = out_ids.old; pool = out_pool.old }) }
{
    let t = m.tree;
    let w = m.segments;
    let d = measure_narrowed(
        lim,
        tables.segments,
        t,
        w,
        m.segment_extractor_name,
        tables.runs,
        tables.views,
        tables.pool,
        config,
        own,
    )
    .ok_or(Refusal::NoRoom)?;
    if used.len() / 2 < d.views {
        return Err(Refusal::NoRoom);
    }
    list_used(
        tables.segments,
        t,
        w,
        tables.runs,
        tables.views,
        tables.pool,
        config,
        own,
        used,
    );
    let end = d.views * 2;
    give_listed(
        lim,
        tables,
        m,
        names,
        config,
        own,
        &used[0..end],
        out_segments,
        out_views,
        out_runs,
        out_borrows,
        out_ids,
        out_pool,
        d,
    )
}

// The result, where no argument is refused.
fn give(
    lim: Limits,
    tables: Tables,
    m: ManifestRow,
    config: ProjectionConfig,
    own: &[u64],
    used: &mut [u64],
    out_segments: &mut [u64],
    out_views: &mut [u64],
    out_runs: &mut [u64],
    out_borrows: &mut [u64],
    out_ids: &mut [u64],
    out_pool: &mut [u8],
) -> Result<(usize, ManifestRow), Refusal>
    requires { judged_of lim (lent_of tables) m ≡ Ok tt }
    ensures { record { answer = result; out = (record { segments = out_segments.new; views = out_views.new; runs = out_runs.new; borrows = out_borrows.new; ids = out_ids.new; pool = out_pool.new }) } ≡ projected_to lim (config_in tables.entry.pool.now config own.now) (length used.old / 2) (projected_of (config_in tables.entry.pool.now config own.now) (manifest_in (lent_of tables.entry) m)) (record { segments = out_segments.old; views = out_views.old; runs = out_runs.old; borrows = out_borrows.old; ids = out_ids.old; pool = out_pool.old }) }
{
    let names = names_count(config.segment_filter);
    if is_noop(config, tables.pool, own) {
        return give_copy(
            lim,
            tables,
            m,
            names,
            out_segments,
            out_views,
            out_runs,
            out_borrows,
            out_ids,
            out_pool,
        );
    }
    give_narrowed(
        lim,
        tables,
        m,
        names,
        config,
        own,
        used,
        out_segments,
        out_views,
        out_runs,
        out_borrows,
        out_ids,
        out_pool,
    )
}

// The projection of a lawful manifest. The bounds of the arguments are places in its pool; `used` is a working list.
// inner
pub fn projected_judged(
    lim: Limits,
    tables: Tables,
    m: ManifestRow,
    c: ProjectionConfig,
    own: &[u64],
    used: &mut [u64],
    out_segments: &mut [u64],
    out_views: &mut [u64],
    out_runs: &mut [u64],
    out_borrows: &mut [u64],
    out_ids: &mut [u64],
    out_pool: &mut [u8],
) -> Result<(usize, ManifestRow), Refusal>
    requires { judged_of lim (lent_of tables) m ≡ Ok tt }
    ensures { record { answer = result; out = (record { segments = out_segments.new; views = out_views.new; runs = out_runs.new; borrows = out_borrows.new; ids = out_ids.new; pool = out_pool.new }) } ≡ projected_given lim (config_in tables.entry.pool.now c own.now) (length used.old / 2) (manifest_in (lent_of tables.entry) m) (record { segments = out_segments.old; views = out_views.old; runs = out_runs.old; borrows = out_borrows.old; ids = out_ids.old; pool = out_pool.old }) }
{
    if global_empty(tables.pool, c) {
        return Err(Refusal::EmptyRange);
    }
    let w = m.segments;
    let filter = c.segment_filter;
    let n = held(w, tables.segments.len() / 12);
    if mask_over(n, filter) {
        return Err(Refusal::MaskBit(highest_bit(filter)));
    }
    match own_fault(tables.segments, tables.pool, w, c, own) {
        None => give(
            lim,
            tables,
            m,
            c,
            own,
            used,
            out_segments,
            out_views,
            out_runs,
            out_borrows,
            out_ids,
            out_pool,
        ),
        Some(refusal) => Err(refusal),
    }
}

// The projection of a manifest.
pub fn projected(
    lim: Limits,
    tables: Tables,
    m: ManifestRow,
    c: ProjectionConfig,
    own: &[u64],
    used: &mut [u64],
    out_segments: &mut [u64],
    out_views: &mut [u64],
    out_runs: &mut [u64],
    out_borrows: &mut [u64],
    out_ids: &mut [u64],
    out_pool: &mut [u8],
) -> Result<(usize, ManifestRow), Refusal>
    ensures { record { answer = result; out = (record { segments = out_segments.new; views = out_views.new; runs = out_runs.new; borrows = out_borrows.new; ids = out_ids.new; pool = out_pool.new }) } ≡ projected_in lim (lent_of tables.entry) m c own.now used.old (record { segments = out_segments.old; views = out_views.old; runs = out_runs.old; borrows = out_borrows.old; ids = out_ids.old; pool = out_pool.old }) }
{
    if config_over(lim.key, tables.pool.len(), m.segments.count, c, own) {
        return Err(Refusal::OverLimit);
    }
    // A `match`: the proof answers each of its arms.
    match lawful(lim, tables, m) {
        Ok(()) => projected_judged(
            lim,
            tables,
            m,
            c,
            own,
            used,
            out_segments,
            out_views,
            out_runs,
            out_borrows,
            out_ids,
            out_pool,
        ),
        Err(rule) => Err(Refusal::Unlawful(rule)),
    }
}
