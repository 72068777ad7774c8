// The face for programs in other languages: encoded manifests, plain bytes and numbers in, numbers and encoded bytes out. All memory
// is lent by the caller; what the working tables hold after a call is of no use.
#![tactic(auto)]

mod answers;

ghost use Rattle.std.specs.Prelude.{◌≡◌, []};
ghost use Rattle.records.specs.Limits.{limits01};
ghost use Rattle.segments.specs.Lookup.{looked};
ghost use Rattle.segments.specs.Select.{selected};
ghost use Rattle.borrows.specs.Clone.{uuids_of};
ghost use Rattle.manifest_rows.specs.Stored.{lent};
ghost use Rattle.encoded.specs.Read.{read_to};
ghost use Rattle.encoded.specs.Lookup.{lookup_of};
ghost use Rattle.encoded.specs.Insert.{insert_to};
ghost use Rattle.encoded_merge.specs.Merge.{merge_to};
ghost use Rattle.merge.specs.declared.Side.TheVariants.{Writer, Compactor};
ghost use Rattle.encoded_borrows.specs.Owned.{owned_to};
ghost use Rattle.encoded_borrows.specs.Clone.{clone_to};
ghost use Rattle.exports_forms.specs.Arguments.{room_fill, uuid_arg};
ghost use Rattle.exports_forms.specs.Replies.{told, wrote_reply, owned_reply};
ghost use Rattle.exports.specs.Calls.{select_by, insert_reply, project_by, project_reply};

use answers::{inserted_answer, projected_answer};
use encoded_project::{call_over, lacks_list, project_within, read_behind};
use exports_forms::{
    Answer, config_arg, global_odd, is_odd, looked_answer, range_arg, refused_answer, room_fill,
    selected_answer, uuid_arg, written_answer,
};
use merge::Side;
use records::{Refusal, limits_01};

// ---- the entry points

// Reads a manifest and writes it anew, in the shortest forms: 0, and how many bytes of `out` it fills.
pub fn manifest_read(
    s: &[u8],
    room: &[u64; 6],
    segments: &mut [u64],
    views: &mut [u64],
    runs: &mut [u64],
    borrows: &mut [u64],
    ids: &mut [u64],
    out: &mut [u8],
) -> Answer
    ensures { record { answer = result; out = out.new } ≡ wrote_reply (read_to limits01 s.now (room_fill room.now) (lent segments.old views.old runs.old borrows.old ids.old []) out.old) }
{
    let lim = limits_01();
    let most = room_fill(room);
    let w = encoded::read(lim, s, most, segments, views, runs, borrows, ids, out);
    written_answer(w)
}

// The tree of a prefix: 0, and 0 for the unsegmented one, 1 and its index for a segment's, 2 where there is none.
pub fn manifest_lookup(
    s: &[u8],
    prefix: &[u8],
    segments: &mut [u64],
    views: &mut [u64],
    runs: &mut [u64],
    borrows: &mut [u64],
    ids: &mut [u64],
) -> Answer
    ensures { result ≡ told (looked (lookup_of limits01 s.now prefix.now (lent segments.old views.old runs.old borrows.old ids.old []))) }
{
    let lim = limits_01();
    let x = encoded::lookup(lim, s, prefix, segments, views, runs, borrows, ids);
    looked_answer(x)
}

// The segments with some key in a range: 0, and 0 where there are no segments at all, or 1 with the first and the one past the
// last.
pub fn manifest_select(
    s: &[u8],
    args: &[u8],
    range: &[u64; 6],
    segments: &mut [u64],
    views: &mut [u64],
    runs: &mut [u64],
    borrows: &mut [u64],
    ids: &mut [u64],
) -> Answer
    ensures { result ≡ told (selected (select_by range.now s.now args.now (lent segments.old views.old runs.old borrows.old ids.old []))) }
{
    if is_odd(range) {
        return refused_answer(Refusal::OverLimit);
    }
    let lim = limits_01();
    let r = range_arg(range);
    let x = encoded::select(lim, s, args, r, segments, views, runs, borrows, ids);
    selected_answer(x)
}

// The segment of a prefix: 0, then 0 and its index where it was held, or 1, the index at which it entered with an empty tree, and how
// many bytes of `out` the manifest fills that it is then in.
pub fn manifest_insert(
    s: &[u8],
    prefix: &[u8],
    room: &[u64; 6],
    segments: &mut [u64],
    views: &mut [u64],
    runs: &mut [u64],
    borrows: &mut [u64],
    ids: &mut [u64],
    out_segments: &mut [u64],
    out_views: &mut [u64],
    out_runs: &mut [u64],
    out_borrows: &mut [u64],
    out_ids: &mut [u64],
    out_pool: &mut [u8],
    out: &mut [u8],
) -> Answer
    ensures { record { answer = result; out = out.new } ≡ insert_reply (insert_to limits01 s.now prefix.now (room_fill room.now) (lent segments.old views.old runs.old borrows.old ids.old []) (lent out_segments.old out_views.old out_runs.old out_borrows.old out_ids.old out_pool.old) out.old) }
{
    let lim = limits_01();
    let most = room_fill(room);
    let x = encoded::insert(
        lim,
        s,
        prefix,
        most,
        segments,
        views,
        runs,
        borrows,
        ids,
        out_segments,
        out_views,
        out_runs,
        out_borrows,
        out_ids,
        out_pool,
        out,
    );
    inserted_answer(x)
}

// From the writer's side the segments of the writer's manifest, each tree merged with the compactor's; from the compactor's the segments of
// either manifest that are not empty once merged: 0, and how many bytes of `out` the encoded list fills.
// The tables whose names begin with `both` have room for two manifests, `pool` for the bytes of one.
pub fn manifest_merge(
    side: Side,
    writer: &[u8],
    compactor: &[u8],
    room: &[u64; 6],
    segments: &mut [u64],
    views: &mut [u64],
    runs: &mut [u64],
    borrows: &mut [u64],
    ids: &mut [u64],
    both_segments: &mut [u64],
    both_views: &mut [u64],
    both_runs: &mut [u64],
    both_borrows: &mut [u64],
    both_ids: &mut [u64],
    both_pool: &mut [u8],
    pool: &mut [u8],
    out: &mut [u8],
) -> Answer
    ensures { record { answer = result; out = out.new } ≡ wrote_reply (merge_to side limits01 writer.now compactor.now (room_fill room.now) (lent segments.old views.old runs.old borrows.old ids.old []) (lent both_segments.old both_views.old both_runs.old both_borrows.old both_ids.old both_pool.old) pool.old out.old) }
{
    let lim = limits_01();
    let most = room_fill(room);
    let w = encoded_merge::merge(
        side,
        lim,
        writer,
        compactor,
        most,
        segments,
        views,
        runs,
        borrows,
        ids,
        both_segments,
        both_views,
        both_runs,
        both_borrows,
        both_ids,
        both_pool,
        pool,
        out,
    );
    written_answer(w)
}

// The segments of the writer's manifest, each tree merged with the compactor's: 0, and how many bytes of `out` the encoded list fills.
// The tables whose names begin with `both` have room for two manifests, `pool` for the bytes of one.
pub fn manifest_merge_from_writer(
    writer: &[u8],
    compactor: &[u8],
    room: &[u64; 6],
    segments: &mut [u64],
    views: &mut [u64],
    runs: &mut [u64],
    borrows: &mut [u64],
    ids: &mut [u64],
    both_segments: &mut [u64],
    both_views: &mut [u64],
    both_runs: &mut [u64],
    both_borrows: &mut [u64],
    both_ids: &mut [u64],
    both_pool: &mut [u8],
    pool: &mut [u8],
    out: &mut [u8],
) -> Answer
    ensures { record { answer = result; out = out.new } ≡ wrote_reply (merge_to Writer limits01 writer.now compactor.now (room_fill room.now) (lent segments.old views.old runs.old borrows.old ids.old []) (lent both_segments.old both_views.old both_runs.old both_borrows.old both_ids.old both_pool.old) pool.old out.old) }
{
    manifest_merge(
        Side::Writer,
        writer,
        compactor,
        room,
        segments,
        views,
        runs,
        borrows,
        ids,
        both_segments,
        both_views,
        both_runs,
        both_borrows,
        both_ids,
        both_pool,
        pool,
        out,
    )
}

// The segments of either manifest that are not empty once merged: the same.
pub fn manifest_merge_from_compactor(
    writer: &[u8],
    compactor: &[u8],
    room: &[u64; 6],
    segments: &mut [u64],
    views: &mut [u64],
    runs: &mut [u64],
    borrows: &mut [u64],
    ids: &mut [u64],
    both_segments: &mut [u64],
    both_views: &mut [u64],
    both_runs: &mut [u64],
    both_borrows: &mut [u64],
    both_ids: &mut [u64],
    both_pool: &mut [u8],
    pool: &mut [u8],
    out: &mut [u8],
) -> Answer
    ensures { record { answer = result; out = out.new } ≡ wrote_reply (merge_to Compactor limits01 writer.now compactor.now (room_fill room.now) (lent segments.old views.old runs.old borrows.old ids.old []) (lent both_segments.old both_views.old both_runs.old both_borrows.old both_ids.old both_pool.old) pool.old out.old) }
{
    manifest_merge(
        Side::Compactor,
        writer,
        compactor,
        room,
        segments,
        views,
        runs,
        borrows,
        ids,
        both_segments,
        both_views,
        both_runs,
        both_borrows,
        both_ids,
        both_pool,
        pool,
        out,
    )
}

// The ids that a manifest uses and borrows from no one: 0, and how many ids stand at the front of `out`, two words each.
pub fn manifest_owned(
    s: &[u8],
    segments: &mut [u64],
    views: &mut [u64],
    runs: &mut [u64],
    borrows: &mut [u64],
    ids: &mut [u64],
    out: &mut [u64],
) -> Answer
    ensures { record { answer = result; out = out.new } ≡ owned_reply (owned_to limits01 s.now (lent segments.old views.old runs.old borrows.old ids.old []) out.old) }
{
    let lim = limits_01();
    let x = encoded_borrows::owned(lim, s, segments, views, runs, borrows, ids, out);
    written_answer(x)
}

// A manifest that borrows all it uses, from the parent at `path` or from those that the parent borrows from: 0, and how many bytes
// of `out` it fills. A fresh UUID for each of its borrows stands in `fresh`, two words each.
pub fn manifest_clone(
    s: &[u8],
    path: &[u8],
    checkpoint: &[u64; 2],
    fresh: &[u64],
    room: &[u64; 6],
    segments: &mut [u64],
    views: &mut [u64],
    runs: &mut [u64],
    borrows: &mut [u64],
    ids: &mut [u64],
    out_segments: &mut [u64],
    out_views: &mut [u64],
    out_runs: &mut [u64],
    out_borrows: &mut [u64],
    out_ids: &mut [u64],
    out_pool: &mut [u8],
    out: &mut [u8],
) -> Answer
    ensures { record { answer = result; out = out.new } ≡ wrote_reply (clone_to limits01 s.now path.now (uuid_arg checkpoint.now) (uuids_of fresh.now) (room_fill room.now) (lent segments.old views.old runs.old borrows.old ids.old []) (lent out_segments.old out_views.old out_runs.old out_borrows.old out_ids.old out_pool.old) out.old) }
{
    let lim = limits_01();
    let most = room_fill(room);
    let parent = uuid_arg(checkpoint);
    let w = encoded_borrows::clone(
        lim,
        s,
        path,
        parent,
        fresh,
        most,
        segments,
        views,
        runs,
        borrows,
        ids,
        out_segments,
        out_views,
        out_runs,
        out_borrows,
        out_ids,
        out_pool,
        out,
    );
    written_answer(w)
}

// A manifest narrowed to ranges and a filter: 0, how many segments the mask names, and how many bytes of `out` the result fills. The
// bounds of the global range and of the own ranges, six words each, are places in `args`. The tables whose names begin with `in` have
// room for one manifest, their pool for the bytes of `args` too, `used` for the ids of its views, `pool` for the bytes of the result.
pub fn manifest_project(
    s: &[u8],
    args: &[u8],
    asked: &[u64; 5],
    global: &[u64; 6],
    own: &[u64],
    room: &[u64; 6],
    segments: &mut [u64],
    views: &mut [u64],
    runs: &mut [u64],
    borrows: &mut [u64],
    ids: &mut [u64],
    in_segments: &mut [u64],
    in_views: &mut [u64],
    in_runs: &mut [u64],
    in_borrows: &mut [u64],
    in_ids: &mut [u64],
    in_pool: &mut [u8],
    used: &mut [u64],
    pool: &mut [u8],
    out: &mut [u8],
) -> Answer
    ensures { record { answer = result; out = out.new } ≡ project_reply (project_by asked.now global.now s.now args.now own.now (room_fill room.now) (lent segments.old views.old runs.old borrows.old ids.old []) (lent in_segments.old in_views.old in_runs.old in_borrows.old in_ids.old in_pool.old) used.old pool.old out.old) }
{
    if global_odd(asked, global) {
        return refused_answer(Refusal::OverLimit);
    }
    let lim = limits_01();
    let c = config_arg(asked, global);
    let g = c.global_range;
    if call_over(lim.key, s.len(), args.len(), g) {
        return refused_answer(Refusal::OverLimit);
    }
    if lacks_list(lim, used.len(), pool.len()) {
        return refused_answer(Refusal::NoRoom);
    }
    let most = room_fill(room);
    match read_behind(
        lim,
        s,
        args,
        c,
        own,
        segments,
        views,
        runs,
        borrows,
        ids,
        in_segments,
        in_views,
        in_runs,
        in_borrows,
        in_ids,
        in_pool,
    ) {
        Ok(m) => {
            let x = project_within(
                lim,
                in_segments,
                in_views,
                in_runs,
                in_borrows,
                in_ids,
                in_pool,
                m,
                c,
                own,
                used,
                most,
                segments,
                views,
                runs,
                borrows,
                ids,
                pool,
                out,
            );
            projected_answer(x)
        }
        Err(x) => refused_answer(x),
    }
}
