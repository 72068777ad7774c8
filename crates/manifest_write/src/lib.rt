// Manifests as MessagePack: the shortest forms, into a lent slice. The `add_` functions store where there is room and
// only count where there is none; so one walk over the records gives the size, and the same walk the bytes.
#![tactic(auto)]

mod rows_put;
mod values_put;

ghost use Rattle.std.specs.Prelude.{◌≡◌, [], ◌∷◌, ◌<◌};
ghost use Rattle.records.specs.Decode.{tree_in, segments_in, name_in, manifest_in, lent_of};
ghost use Rattle.msgpack_put.specs.Write.{uint_bytes, int_bytes, flag_bytes, concat};
ghost use Rattle.manifest_write.specs.Bytes.{tree_bytes, segments_bytes, name_bytes, manifest_bytes};
ghost use Rattle.manifest_write.specs.Answer.{put_of, write_of};
ghost use Rattle.manifest_write.specs.Wrote.{Wrote};

use lawful::lawful;
use msgpack_put::{Head, sign_of};
use records::{Limits, ManifestRow, Refusal, Tables};
use rows_put::{add_borrows, add_segments, add_tree};
use tables::Window;
use values_put::{add_array, add_head, add_optional_bin};

// ---- the manifest

// Its first four parts.
fn add_front(
    m: ManifestRow,
    segments: &[u64],
    views: &[u64],
    runs: &[u64],
    pool: &[u8],
    out: &mut [u8],
    at: usize,
) -> usize
    ensures { Wrote out.old at (concat (flag_bytes m.initialized ∷ tree_bytes (tree_in runs.now views.now pool.now m.tree) ∷ segments_bytes (segments_in segments.now runs.now views.now pool.now m.segments) ∷ name_bytes (name_in pool.now m.segment_extractor_name) ∷ [])) result out.new }
{
    let p0 = add_head(Head::Flag(m.initialized), out, at);
    let p1 = add_tree(m.tree, runs, views, pool, out, p0);
    let p2 = add_segments(segments, m.segments, runs, views, pool, out, p1);
    add_optional_bin(m.segment_extractor_name, pool, out, p2)
}

// The five numbers after them.
fn add_numbers(m: ManifestRow, out: &mut [u8], at: usize) -> usize
    ensures { Wrote out.old at (concat (uint_bytes m.next_wal_sst_id ∷ uint_bytes m.replay_after_wal_id ∷ int_bytes m.last_l0_clock_tick ∷ uint_bytes m.last_l0_seq ∷ uint_bytes m.recent_snapshot_min_seq ∷ [])) result out.new }
{
    let p0 = add_head(Head::Uint(m.next_wal_sst_id), out, at);
    let p1 = add_head(Head::Uint(m.replay_after_wal_id), out, p0);
    let p2 = add_head(sign_of(m.last_l0_clock_tick), out, p1);
    let p3 = add_head(Head::Uint(m.last_l0_seq), out, p2);
    add_head(Head::Uint(m.recent_snapshot_min_seq), out, p3)
}

// inner
pub fn add_manifest(m: ManifestRow, tables: Tables, out: &mut [u8], at: usize) -> usize
    ensures { Wrote out.old at (manifest_bytes (manifest_in (lent_of tables.entry) m)) result out.new }
{
    let p0 = add_array(12, out, at);
    let p1 = add_front(
        m,
        tables.segments,
        tables.views,
        tables.runs,
        tables.pool,
        out,
        p0,
    );
    let p2 = add_numbers(m, out, p1);
    let p3 = add_borrows(
        tables.borrows,
        m.external_dbs,
        tables.ids,
        tables.pool,
        out,
        p2,
    );
    let p4 = add_head(Head::Uint(m.writer_epoch), out, p3);
    add_head(Head::Uint(m.compactor_epoch), out, p4)
}

// ---- size, room, bytes

// A list of segments alone, which a merge's result is; the merge has judged it.
pub fn write_segments(
    segments: &[u64],
    views: &[u64],
    runs: &[u64],
    pool: &[u8],
    w: Window,
    out: &mut [u8],
) -> Result<usize, Refusal>
    ensures { record { answer = result; out = out.new } ≡ put_of (segments_bytes (segments_in segments.now runs.now views.now pool.now w)) out.old }
{
    let mut nowhere = [0u8; 1];
    let n = add_segments(segments, w, runs, views, pool, &mut nowhere, 0);
    if out.len() < n {
        return Err(Refusal::NoRoom);
    }
    add_segments(segments, w, runs, views, pool, out, 0);
    Ok(n)
}

// A manifest that the caller has judged.
// inner
pub fn write_judged(tables: Tables, m: ManifestRow, out: &mut [u8]) -> Result<usize, Refusal>
    ensures { record { answer = result; out = out.new } ≡ put_of (manifest_bytes (manifest_in (lent_of tables.entry) m)) out.old }
{
    let mut nowhere = [0u8; 1];
    let n = add_manifest(m, tables, &mut nowhere, 0);
    if out.len() < n {
        return Err(Refusal::NoRoom);
    }
    add_manifest(m, tables, out, 0);
    Ok(n)
}

// A manifest: 1 with the first broken rule, then 4 where the slice is too short, nothing changed by either.
#[tactic(auto, unfolding(crate::specs::Answer::write_of))]
pub fn write(lim: Limits, tables: Tables, m: ManifestRow, out: &mut [u8]) -> Result<usize, Refusal>
    ensures { record { answer = result; out = out.new } ≡ write_of lim (lent_of tables.entry) m out.old }
{
    lawful(lim, tables, m).map_err(Refusal::Unlawful)?;
    write_judged(tables, m, out)
}
