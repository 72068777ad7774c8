// The merges: a writer's tree with a compactor's, and the segment lists of two manifests.
#![tactic(auto)]

mod merge_faults;
mod merge_laid;
mod merge_steps;

ghost use Rattle.std.specs.Prelude.{◌≡◌, true, ◌/◌};
ghost use Rattle.keys.specs.Key.{less_of};
ghost use Rattle.records.specs.Decode.{segments_in, manifest_in, lent_of};
ghost use Rattle.measure.specs.Tests.{all_of, chain};
ghost use Rattle.lawful.specs.Judge.{judged_of};
ghost use Rattle.segments.specs.Prefixes.{prefixes_in};
ghost use Rattle.merge.specs.Answer.{list_given, given_by, merge_of};
ghost use Rattle.merge.specs.Steps.{rows_in, merged_from, row_kept};
ghost use Rattle.merge.specs.declared.Side.TheVariants.{Writer, Compactor};

use lawful::lawful;
use measure::fits_in;
use merge_faults::own_fault;
use merge_laid::{measure_merged, put_merged};
pub use merge_steps::merge_writer_and_compactor;
use records::{Fill, Limits, ManifestRow, Place, Refusal, SegmentRow, Tables};
use tables::Window;

// Whose manifest is merged in.
#[derive(Clone, Copy)]
pub enum Side {
    Writer,
    Compactor,
}

// The rows at the cursors: the one with the lower prefix, or both.
#[derive(Clone, Copy)]
enum MergeStep {
    End,
    WriterOnly(SegmentRow),
    CompactorOnly(SegmentRow),
    Both(SegmentRow, SegmentRow),
}

#[derive(Clone, Copy)]
struct Cursors {
    i: usize,
    j: usize,
}

// What a step gives, and the cursors past it.
#[derive(Clone, Copy)]
struct Next {
    keep: Option<SegmentRow>,
    i: usize,
    j: usize,
}

// Whether a step has data that is the compactor's only, and the cursors past it.
#[derive(Clone, Copy)]
struct Only {
    alone: bool,
    i: usize,
    j: usize,
}

// What was kept so far: nothing, the last prefix with its index, or one that begins the next.
#[derive(Clone, Copy)]
enum Nest {
    Clear,
    Last(usize, Place),
    At(usize),
}

// ---- the merges

// The merged segments where there is room for them, else nothing changed.
fn give(
    side: Side,
    lim: Limits,
    segments: &[u64],
    views: &[u64],
    runs: &[u64],
    pool: &[u8],
    w: Window,
    c: Window,
    out_segments: &mut [u64],
    out_views: &mut [u64],
    out_runs: &mut [u64],
    out_pool: &mut [u8],
) -> Result<Window, Refusal>
    requires w_value { (chain less_of (prefixes_in segments.now pool.now w) ≡ true) × (chain less_of (prefixes_in segments.now pool.now c) ≡ true) }
    requires w_value_2 { (all_of (row_kept lim views.now runs.now pool.now) (rows_in segments.now w) ≡ true) × (all_of (row_kept lim views.now runs.now pool.now) (rows_in segments.now c) ≡ true) }
    ensures { record { answer = result; out = record { segments = out_segments.new; views = out_views.new; runs = out_runs.new; pool = out_pool.new } } ≡ list_given lim (merged_from side (segments_in segments.now runs.now views.now pool.now w) (segments_in segments.now runs.now views.now pool.now c)) (record { segments = out_segments.old; views = out_views.old; runs = out_runs.old; pool = out_pool.old }) }
{
    let f = measure_merged(side, lim, segments, runs, views, pool, w, c).ok_or(Refusal::NoRoom)?;
    let room = Fill {
        segments: out_segments.len() / 12,
        views: out_views.len() / 16,
        runs: out_runs.len() / 3,
        borrows: 0,
        ids: 0,
        bytes: out_pool.len(),
    };
    if fits_in(f, room) {
        let to = put_merged(
            side,
            segments,
            runs,
            views,
            pool,
            w,
            c,
            out_segments,
            out_runs,
            out_views,
            out_pool,
        );
        return Ok(Window {
            first: 0,
            count: to.segments,
        });
    }
    Err(Refusal::NoRoom)
}

// A merge of two lawful manifests.
// inner
pub fn merge_judged(
    side: Side,
    lim: Limits,
    tables: Tables,
    writer: ManifestRow,
    compactor: ManifestRow,
    out_segments: &mut [u64],
    out_views: &mut [u64],
    out_runs: &mut [u64],
    out_pool: &mut [u8],
) -> Result<Window, Refusal>
    requires { (judged_of lim (lent_of tables) writer ≡ Ok tt) × (judged_of lim (lent_of tables) compactor ≡ Ok tt) }
    ensures { record { answer = result; out = record { segments = out_segments.new; views = out_views.new; runs = out_runs.new; pool = out_pool.new } } ≡ given_by side lim (manifest_in (lent_of tables.entry) writer).segments (manifest_in (lent_of tables.entry) compactor).segments (record { segments = out_segments.old; views = out_views.old; runs = out_runs.old; pool = out_pool.old }) }
{
    let w = writer.segments;
    let c = compactor.segments;
    match own_fault(
        side,
        tables.segments,
        tables.views,
        tables.runs,
        tables.pool,
        w,
        c,
    ) {
        Some(x) => Err(x),
        None => give(
            side,
            lim,
            tables.segments,
            tables.views,
            tables.runs,
            tables.pool,
            w,
            c,
            out_segments,
            out_views,
            out_runs,
            out_pool,
        ),
    }
}

// The writer's manifest is judged first.
fn merge_segments(
    side: Side,
    lim: Limits,
    tables: Tables,
    writer: ManifestRow,
    compactor: ManifestRow,
    out_segments: &mut [u64],
    out_views: &mut [u64],
    out_runs: &mut [u64],
    out_pool: &mut [u8],
) -> Result<Window, Refusal>
    ensures { record { answer = result; out = record { segments = out_segments.new; views = out_views.new; runs = out_runs.new; pool = out_pool.new } } ≡ merge_of side lim (lent_of tables.entry) writer compactor (record { segments = out_segments.old; views = out_views.old; runs = out_runs.old; pool = out_pool.old }) }
{
    // Two `match`es: the proof answers each of their arms.
    let a = lawful(lim, tables, writer);
    match a {
        Err(rule) => Err(Refusal::Unlawful(rule)),
        Ok(()) => {
            let b = lawful(lim, tables, compactor);
            match b {
                Err(rule) => Err(Refusal::Unlawful(rule)),
                Ok(()) => merge_judged(
                    side,
                    lim,
                    tables,
                    writer,
                    compactor,
                    out_segments,
                    out_views,
                    out_runs,
                    out_pool,
                ),
            }
        }
    }
}

// Every writer prefix, merged with the compactor's tree or an empty one, or nothing changed. This and the next keep the original's names.
pub fn merge_segments_from_writer(
    lim: Limits,
    tables: Tables,
    writer: ManifestRow,
    compactor: ManifestRow,
    out_segments: &mut [u64],
    out_views: &mut [u64],
    out_runs: &mut [u64],
    out_pool: &mut [u8],
) -> Result<Window, Refusal>
    ensures { record { answer = result; out = record { segments = out_segments.new; views = out_views.new; runs = out_runs.new; pool = out_pool.new } } ≡ merge_of Writer lim (lent_of tables.entry) writer compactor (record { segments = out_segments.old; views = out_views.old; runs = out_runs.old; pool = out_pool.old }) }
{
    merge_segments(
        Side::Writer,
        lim,
        tables,
        writer,
        compactor,
        out_segments,
        out_views,
        out_runs,
        out_pool,
    )
}

// The prefixes of either side, merged, without those whose result is empty, or nothing changed.
pub fn merge_segments_from_compactor(
    lim: Limits,
    tables: Tables,
    writer: ManifestRow,
    compactor: ManifestRow,
    out_segments: &mut [u64],
    out_views: &mut [u64],
    out_runs: &mut [u64],
    out_pool: &mut [u8],
) -> Result<Window, Refusal>
    ensures { record { answer = result; out = record { segments = out_segments.new; views = out_views.new; runs = out_runs.new; pool = out_pool.new } } ≡ merge_of Compactor lim (lent_of tables.entry) writer compactor (record { segments = out_segments.old; views = out_views.old; runs = out_runs.old; pool = out_pool.old }) }
{
    merge_segments(
        Side::Compactor,
        lim,
        tables,
        writer,
        compactor,
        out_segments,
        out_views,
        out_runs,
        out_pool,
    )
}
