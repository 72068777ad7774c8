// The clone, or why there is none.
ghost use Rattle.std.specs.Prelude.{◌≡◌, ◌/◌, ◌<◌};
ghost use Rattle.records.specs.Decode.{manifest_in, lent_of};
ghost use Rattle.lawful.specs.Judge.{judged_of};
ghost use Rattle.borrows.specs.Clone.{uuids_of};
ghost use Rattle.borrows.specs.Answer.{cloned_given, cloned_in};

use crate::clone_lenders::lacks_final;
use crate::clone_rows::{bare_fill, clone_fill, put_clone};
use ids::Uuid;
use lawful::lawful;
use measure::fits_in;
use records::{Fill, Limits, ManifestRow, Refusal, Tables};

// The clone of a lawful manifest: the refusals 15, 4 and 16 in this order, then all of it is laid.
// inner
pub fn cloned_judged(
    lim: Limits,
    tables: Tables,
    m: ManifestRow,
    path: &[u8],
    checkpoint: Uuid,
    fresh: &[u64],
    out_segments: &mut [u64],
    out_views: &mut [u64],
    out_runs: &mut [u64],
    out_borrows: &mut [u64],
    out_ids: &mut [u64],
    out_pool: &mut [u8],
) -> Result<ManifestRow, Refusal>
    requires { judged_of lim (lent_of tables) m ≡ Ok tt }
    ensures { record { answer = result; out = record { segments = out_segments.new; views = out_views.new; runs = out_runs.new; borrows = out_borrows.new; ids = out_ids.new; pool = out_pool.new } } ≡ cloned_given lim (manifest_in (lent_of tables.entry) m) path.now checkpoint (uuids_of fresh.now) (record { segments = out_segments.old; views = out_views.old; runs = out_runs.old; borrows = out_borrows.old; ids = out_ids.old; pool = out_pool.old }) }
{
    let w = m.external_dbs;
    if lacks_final(tables.borrows, w) {
        return Err(Refusal::NoFinal);
    }
    match clone_fill(lim, tables, m, path) {
        None => Err(Refusal::NoRoom),
        Some(f) => {
            let room = Fill {
                segments: out_segments.len() / 12,
                views: out_views.len() / 16,
                runs: out_runs.len() / 3,
                borrows: out_borrows.len() / 9,
                ids: out_ids.len() / 2,
                bytes: out_pool.len(),
            };
            if !fits_in(f, room) {
                return Err(Refusal::NoRoom);
            }
            if fresh.len() / 2 < f.borrows {
                return Err(Refusal::TooFewFresh);
            }
            let c = bare_fill(lim, tables, m);
            Ok(put_clone(
                tables,
                m,
                path,
                checkpoint,
                fresh,
                out_segments,
                out_views,
                out_runs,
                out_borrows,
                out_ids,
                out_pool,
                c,
            ))
        }
    }
}

// A manifest that borrows all it uses, from the parent at `path` or from those that the parent borrows from.
pub fn cloned(
    lim: Limits,
    tables: Tables,
    m: ManifestRow,
    path: &[u8],
    checkpoint: Uuid,
    fresh: &[u64],
    out_segments: &mut [u64],
    out_views: &mut [u64],
    out_runs: &mut [u64],
    out_borrows: &mut [u64],
    out_ids: &mut [u64],
    out_pool: &mut [u8],
) -> Result<ManifestRow, Refusal>
    ensures { record { answer = result; out = record { segments = out_segments.new; views = out_views.new; runs = out_runs.new; borrows = out_borrows.new; ids = out_ids.new; pool = out_pool.new } } ≡ cloned_in lim (lent_of tables.entry) m path.now checkpoint (uuids_of fresh.now) (record { segments = out_segments.old; views = out_views.old; runs = out_runs.old; borrows = out_borrows.old; ids = out_ids.old; pool = out_pool.old }) }
{
    if lim.path < path.len() {
        return Err(Refusal::OverLimit);
    }
    match lawful(lim, tables, m) {
        Ok(()) => cloned_judged(
            lim,
            tables,
            m,
            path,
            checkpoint,
            fresh,
            out_segments,
            out_views,
            out_runs,
            out_borrows,
            out_ids,
            out_pool,
        ),
        Err(rule) => Err(Refusal::Unlawful(rule)),
    }
}
