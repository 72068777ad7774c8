// The C function of the archive libexports_union.a, as in `exports_c`: it calls the function of `exports_union` that has its name, and
// promises the same.
#![tactic(auto)]

ghost use Rattle.std.specs.Prelude.{◌≡◌, [], length};
ghost use Rattle.records.specs.Limits.{limits01};
ghost use Rattle.manifest_rows.specs.Stored.{lent};
ghost use Rattle.encoded_union.specs.Union.{union_to};
ghost use Rattle.encoded_united.specs.Lists.{own_short};
ghost use Rattle.exports_forms.specs.Replies.{wrote_reply};
ghost use Rattle.exports_forms.specs.Arguments.{room_fill};

use exports_forms::Answer;

#[unsafe(no_mangle)]
pub extern "C" fn manifest_union(
    s: &[u8],
    ends: &[u64],
    paths: &[u8],
    path_ends: &[u64],
    checkpoints: &[u64],
    fresh: &[u64],
    room: &[u64; 6],
    segments: &mut [u64],
    views: &mut [u64],
    runs: &mut [u64],
    borrows: &mut [u64],
    ids: &mut [u64],
    all_segments: &mut [u64],
    all_views: &mut [u64],
    all_runs: &mut [u64],
    all_borrows: &mut [u64],
    all_ids: &mut [u64],
    all_pool: &mut [u8],
    lent_fresh: &mut [u64],
    sets: &mut [u64],
    to_pool: &mut [u8],
    out: &mut [u8],
) -> Answer
    ensures { record { answer = result; out = out.new } ≡ wrote_reply (union_to limits01 s.now ends.now paths.now path_ends.now checkpoints.now fresh.now (room_fill room.now) (lent segments.old views.old runs.old borrows.old ids.old []) (lent all_segments.old all_views.old all_runs.old all_borrows.old all_ids.old all_pool.old) (length lent_fresh.old) (own_short limits01 (length sets.old)) (lent segments.old views.old runs.old borrows.old ids.old to_pool.old) out.old) }
{
    exports_union::manifest_union(
        s,
        ends,
        paths,
        path_ends,
        checkpoints,
        fresh,
        room,
        segments,
        views,
        runs,
        borrows,
        ids,
        all_segments,
        all_views,
        all_runs,
        all_borrows,
        all_ids,
        all_pool,
        lent_fresh,
        sets,
        to_pool,
        out,
    )
}
