// The union of encoded manifests: bytes in, bytes out. Each source is read into working tables and from there into those that hold all; these are
// united into the working tables, which nothing else needs by then, and written. A refused call leaves the lent output as it was.
#![tactic(auto)]

mod call_forms;

ghost use Rattle.std.specs.Prelude.{◌≡◌, false, ◌||◌, [], length};
ghost use Rattle.borrows.specs.Clone.{uuids_of};
ghost use Rattle.manifest_rows.specs.Stored.{lent};
ghost use Rattle.encoded.specs.Read.{refused_with};
ghost use Rattle.encoded_union.specs.Union.{sources_of, unless_unread, union_of, call_over, short_union, union_to};
ghost use Rattle.encoded_united.specs.Lists.{own_short};

use call_forms::{call_over, lacks_room};
use encoded_union::read_sources;
use encoded_united::union_lent;
use records::{Fill, Limits, Refusal};

// Reads all sources, and unites them into the tables that each was read into.
fn union_read(
    lim: Limits,
    s: &[u8],
    ends: &[u64],
    paths: &[u8],
    path_ends: &[u64],
    checkpoints: &[u64],
    fresh: &[u64],
    room: Fill,
    segments: &mut [u64],
    views: &mut [u64],
    runs: &mut [u64],
    borrows: &mut [u64],
    ids: &mut [u64],
    all_segments: &mut [u64],
    all_views: &mut [u64],
    all_runs: &mut [u64],
    all_borrows: &mut [u64],
    all_ids: &mut [u64],
    all_pool: &mut [u8],
    lent_fresh: &mut [u64],
    sets: &mut [u64],
    to_pool: &mut [u8],
    out: &mut [u8],
) -> Result<usize, Refusal>
    requires { (call_over lim s.now ends.now paths.now path_ends.now checkpoints.now ≡ false) × ((short_union lim (length paths.now) (lent segments.old views.old runs.old borrows.old ids.old []) (lent all_segments.old all_views.old all_runs.old all_borrows.old all_ids.old all_pool.old) (length fresh.now) (length lent_fresh.old) (lent segments.old views.old runs.old borrows.old ids.old to_pool.old) || own_short lim (length sets.old)) ≡ false) }
    ensures { record { answer = result; out = out.new } ≡ unless_unread (refused_with out.old) lim s.now ends.now (length ends.now) (union_of lim room out.old (sources_of lim s.now ends.now paths.now path_ends.now checkpoints.now (length ends.now)) (uuids_of fresh.now)) }
{
    let mut rows = [0u64; 176];
    read_sources(
        lim,
        s,
        ends,
        paths,
        path_ends,
        checkpoints,
        segments,
        views,
        runs,
        borrows,
        ids,
        all_segments,
        all_views,
        all_runs,
        all_borrows,
        all_ids,
        all_pool,
        &mut rows,
    )?;
    union_lent(
        lim,
        &rows,
        ends.len(),
        all_segments,
        all_views,
        all_runs,
        all_borrows,
        all_ids,
        all_pool,
        fresh,
        lent_fresh,
        room,
        sets,
        segments,
        views,
        runs,
        borrows,
        ids,
        to_pool,
        out,
    )
}

// The union of encoded manifests, encoded. Source k is the k-th part of `s`, its path the k-th part of `paths`, its checkpoint the k-th pair of
// `checkpoints`; `ends` and `path_ends` say where each part ends. `room` is what the result may fill. All the rest is working memory, but `out`.
pub fn union(
    lim: Limits,
    s: &[u8],
    ends: &[u64],
    paths: &[u8],
    path_ends: &[u64],
    checkpoints: &[u64],
    fresh: &[u64],
    room: Fill,
    segments: &mut [u64],
    views: &mut [u64],
    runs: &mut [u64],
    borrows: &mut [u64],
    ids: &mut [u64],
    all_segments: &mut [u64],
    all_views: &mut [u64],
    all_runs: &mut [u64],
    all_borrows: &mut [u64],
    all_ids: &mut [u64],
    all_pool: &mut [u8],
    lent_fresh: &mut [u64],
    sets: &mut [u64],
    to_pool: &mut [u8],
    out: &mut [u8],
) -> Result<usize, Refusal>
    ensures { record { answer = result; out = out.new } ≡ union_to lim s.now ends.now paths.now path_ends.now checkpoints.now fresh.now room (lent segments.old views.old runs.old borrows.old ids.old []) (lent all_segments.old all_views.old all_runs.old all_borrows.old all_ids.old all_pool.old) (length lent_fresh.old) (own_short lim (length sets.old)) (lent segments.old views.old runs.old borrows.old ids.old to_pool.old) out.old }
{
    if call_over(lim, s, ends, paths, path_ends, checkpoints) {
        return Err(Refusal::OverLimit);
    }
    if lacks_room(
        lim,
        paths.len(),
        fresh.len(),
        lent_fresh.len(),
        sets.len(),
        segments.len(),
        views.len(),
        runs.len(),
        borrows.len(),
        ids.len(),
        all_segments.len(),
        all_views.len(),
        all_runs.len(),
        all_borrows.len(),
        all_ids.len(),
        all_pool.len(),
        to_pool.len(),
    ) {
        return Err(Refusal::NoRoom);
    }
    union_read(
        lim,
        s,
        ends,
        paths,
        path_ends,
        checkpoints,
        fresh,
        room,
        segments,
        views,
        runs,
        borrows,
        ids,
        all_segments,
        all_views,
        all_runs,
        all_borrows,
        all_ids,
        all_pool,
        lent_fresh,
        sets,
        to_pool,
        out,
    )
}
