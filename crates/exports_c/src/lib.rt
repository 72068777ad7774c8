// The C functions of the archive libexports.a: each calls the function of `exports` that has its name, and promises the same. The library
// itself has no C symbols, so that programs here can use it beside the archive.
#![tactic(auto)]

ghost use Rattle.std.specs.Prelude.{◌≡◌, []};
ghost use Rattle.records.specs.Limits.{limits01};
ghost use Rattle.segments.specs.Lookup.{looked};
ghost use Rattle.segments.specs.Select.{selected};
ghost use Rattle.borrows.specs.Clone.{uuids_of};
ghost use Rattle.manifest_rows.specs.Stored.{lent};
ghost use Rattle.encoded.specs.Read.{read_to};
ghost use Rattle.encoded.specs.Lookup.{lookup_of};
ghost use Rattle.encoded.specs.Insert.{insert_to};
ghost use Rattle.encoded_merge.specs.Merge.{merge_to};
ghost use Rattle.merge.specs.declared.Side.TheVariants.{Writer, Compactor};
ghost use Rattle.encoded_borrows.specs.Owned.{owned_to};
ghost use Rattle.encoded_borrows.specs.Clone.{clone_to};
ghost use Rattle.exports_forms.specs.Arguments.{room_fill, uuid_arg};
ghost use Rattle.exports_forms.specs.Replies.{told, wrote_reply, owned_reply};
ghost use Rattle.exports.specs.Calls.{select_by, insert_reply, project_by, project_reply};

use exports_forms::Answer;

#[unsafe(no_mangle)]
pub extern "C" fn manifest_read(
    s: &[u8],
    room: &[u64; 6],
    segments: &mut [u64],
    views: &mut [u64],
    runs: &mut [u64],
    borrows: &mut [u64],
    ids: &mut [u64],
    out: &mut [u8],
) -> Answer
    ensures { record { answer = result; out = out.new } ≡ wrote_reply (read_to limits01 s.now (room_fill room.now) (lent segments.old views.old runs.old borrows.old ids.old []) out.old) }
{
    exports::manifest_read(s, room, segments, views, runs, borrows, ids, out)
}

#[unsafe(no_mangle)]
pub extern "C" fn manifest_lookup(
    s: &[u8],
    prefix: &[u8],
    segments: &mut [u64],
    views: &mut [u64],
    runs: &mut [u64],
    borrows: &mut [u64],
    ids: &mut [u64],
) -> Answer
    ensures { result ≡ told (looked (lookup_of limits01 s.now prefix.now (lent segments.old views.old runs.old borrows.old ids.old []))) }
{
    exports::manifest_lookup(s, prefix, segments, views, runs, borrows, ids)
}

#[unsafe(no_mangle)]
pub extern "C" fn manifest_select(
    s: &[u8],
    args: &[u8],
    range: &[u64; 6],
    segments: &mut [u64],
    views: &mut [u64],
    runs: &mut [u64],
    borrows: &mut [u64],
    ids: &mut [u64],
) -> Answer
    ensures { result ≡ told (selected (select_by range.now s.now args.now (lent segments.old views.old runs.old borrows.old ids.old []))) }
{
    exports::manifest_select(s, args, range, segments, views, runs, borrows, ids)
}

#[unsafe(no_mangle)]
pub extern "C" fn manifest_insert(
    s: &[u8],
    prefix: &[u8],
    room: &[u64; 6],
    segments: &mut [u64],
    views: &mut [u64],
    runs: &mut [u64],
    borrows: &mut [u64],
    ids: &mut [u64],
    out_segments: &mut [u64],
    out_views: &mut [u64],
    out_runs: &mut [u64],
    out_borrows: &mut [u64],
    out_ids: &mut [u64],
    out_pool: &mut [u8],
    out: &mut [u8],
) -> Answer
    ensures { record { answer = result; out = out.new } ≡ insert_reply (insert_to limits01 s.now prefix.now (room_fill room.now) (lent segments.old views.old runs.old borrows.old ids.old []) (lent out_segments.old out_views.old out_runs.old out_borrows.old out_ids.old out_pool.old) out.old) }
{
    exports::manifest_insert(
        s,
        prefix,
        room,
        segments,
        views,
        runs,
        borrows,
        ids,
        out_segments,
        out_views,
        out_runs,
        out_borrows,
        out_ids,
        out_pool,
        out,
    )
}

#[unsafe(no_mangle)]
pub extern "C" fn manifest_merge_from_writer(
    writer: &[u8],
    compactor: &[u8],
    room: &[u64; 6],
    segments: &mut [u64],
    views: &mut [u64],
    runs: &mut [u64],
    borrows: &mut [u64],
    ids: &mut [u64],
    both_segments: &mut [u64],
    both_views: &mut [u64],
    both_runs: &mut [u64],
    both_borrows: &mut [u64],
    both_ids: &mut [u64],
    both_pool: &mut [u8],
    pool: &mut [u8],
    out: &mut [u8],
) -> Answer
    ensures { record { answer = result; out = out.new } ≡ wrote_reply (merge_to Writer limits01 writer.now compactor.now (room_fill room.now) (lent segments.old views.old runs.old borrows.old ids.old []) (lent both_segments.old both_views.old both_runs.old both_borrows.old both_ids.old both_pool.old) pool.old out.old) }
{
    exports::manifest_merge_from_writer(
        writer,
        compactor,
        room,
        segments,
        views,
        runs,
        borrows,
        ids,
        both_segments,
        both_views,
        both_runs,
        both_borrows,
        both_ids,
        both_pool,
        pool,
        out,
    )
}

#[unsafe(no_mangle)]
pub extern "C" fn manifest_merge_from_compactor(
    writer: &[u8],
    compactor: &[u8],
    room: &[u64; 6],
    segments: &mut [u64],
    views: &mut [u64],
    runs: &mut [u64],
    borrows: &mut [u64],
    ids: &mut [u64],
    both_segments: &mut [u64],
    both_views: &mut [u64],
    both_runs: &mut [u64],
    both_borrows: &mut [u64],
    both_ids: &mut [u64],
    both_pool: &mut [u8],
    pool: &mut [u8],
    out: &mut [u8],
) -> Answer
    ensures { record { answer = result; out = out.new } ≡ wrote_reply (merge_to Compactor limits01 writer.now compactor.now (room_fill room.now) (lent segments.old views.old runs.old borrows.old ids.old []) (lent both_segments.old both_views.old both_runs.old both_borrows.old both_ids.old both_pool.old) pool.old out.old) }
{
    exports::manifest_merge_from_compactor(
        writer,
        compactor,
        room,
        segments,
        views,
        runs,
        borrows,
        ids,
        both_segments,
        both_views,
        both_runs,
        both_borrows,
        both_ids,
        both_pool,
        pool,
        out,
    )
}

#[unsafe(no_mangle)]
pub extern "C" fn manifest_owned(
    s: &[u8],
    segments: &mut [u64],
    views: &mut [u64],
    runs: &mut [u64],
    borrows: &mut [u64],
    ids: &mut [u64],
    out: &mut [u64],
) -> Answer
    ensures { record { answer = result; out = out.new } ≡ owned_reply (owned_to limits01 s.now (lent segments.old views.old runs.old borrows.old ids.old []) out.old) }
{
    exports::manifest_owned(s, segments, views, runs, borrows, ids, out)
}

#[unsafe(no_mangle)]
pub extern "C" fn manifest_clone(
    s: &[u8],
    path: &[u8],
    checkpoint: &[u64; 2],
    fresh: &[u64],
    room: &[u64; 6],
    segments: &mut [u64],
    views: &mut [u64],
    runs: &mut [u64],
    borrows: &mut [u64],
    ids: &mut [u64],
    out_segments: &mut [u64],
    out_views: &mut [u64],
    out_runs: &mut [u64],
    out_borrows: &mut [u64],
    out_ids: &mut [u64],
    out_pool: &mut [u8],
    out: &mut [u8],
) -> Answer
    ensures { record { answer = result; out = out.new } ≡ wrote_reply (clone_to limits01 s.now path.now (uuid_arg checkpoint.now) (uuids_of fresh.now) (room_fill room.now) (lent segments.old views.old runs.old borrows.old ids.old []) (lent out_segments.old out_views.old out_runs.old out_borrows.old out_ids.old out_pool.old) out.old) }
{
    exports::manifest_clone(
        s,
        path,
        checkpoint,
        fresh,
        room,
        segments,
        views,
        runs,
        borrows,
        ids,
        out_segments,
        out_views,
        out_runs,
        out_borrows,
        out_ids,
        out_pool,
        out,
    )
}

#[unsafe(no_mangle)]
pub extern "C" fn manifest_project(
    s: &[u8],
    args: &[u8],
    asked: &[u64; 5],
    global: &[u64; 6],
    own: &[u64],
    room: &[u64; 6],
    segments: &mut [u64],
    views: &mut [u64],
    runs: &mut [u64],
    borrows: &mut [u64],
    ids: &mut [u64],
    in_segments: &mut [u64],
    in_views: &mut [u64],
    in_runs: &mut [u64],
    in_borrows: &mut [u64],
    in_ids: &mut [u64],
    in_pool: &mut [u8],
    used: &mut [u64],
    pool: &mut [u8],
    out: &mut [u8],
) -> Answer
    ensures { record { answer = result; out = out.new } ≡ project_reply (project_by asked.now global.now s.now args.now own.now (room_fill room.now) (lent segments.old views.old runs.old borrows.old ids.old []) (lent in_segments.old in_views.old in_runs.old in_borrows.old in_ids.old in_pool.old) used.old pool.old out.old) }
{
    exports::manifest_project(
        s,
        args,
        asked,
        global,
        own,
        room,
        segments,
        views,
        runs,
        borrows,
        ids,
        in_segments,
        in_views,
        in_runs,
        in_borrows,
        in_ids,
        in_pool,
        used,
        pool,
        out,
    )
}
