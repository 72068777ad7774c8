// The C functions of the archive libexports_tables.a, as in `exports_c`: each calls the function of `exports_tables` that has its name,
// and promises the same.
#![tactic(auto)]

ghost use Rattle.std.specs.Prelude.{◌≡◌};
ghost use Rattle.records.specs.Limits.{limits01};
ghost use Rattle.segments.specs.Lookup.{looked, looked_of};
ghost use Rattle.segments.specs.Select.{selected};
ghost use Rattle.manifest_write.specs.Answer.{write_of};
ghost use Rattle.manifest_rows.specs.Stored.{lent};
ghost use Rattle.exports_forms.specs.Replies.{told, wrote_reply};
ghost use Rattle.manifest_read.specs.Answer.{read_of};
ghost use Rattle.insert.specs.Insert.{insert_of};
ghost use Rattle.exports_tables.specs.Head.{head_at};
ghost use Rattle.exports_tables.specs.Calls.{select_in, read_reply, insert_reply};

use exports_forms::Answer;
use exports_tables::Laid;
use records::Tables;

#[unsafe(no_mangle)]
pub extern "C" fn tables_lookup(
    tree: &[u64; 12],
    rest: &[u64; 12],
    tick: i64,
    segments: &[u64],
    views: &[u64],
    runs: &[u64],
    borrows: &[u64],
    ids: &[u64],
    pool: &[u8],
    prefix: &[u8],
) -> Answer
    ensures { result ≡ told (looked (looked_of limits01 (lent segments.now views.now runs.now borrows.now ids.now pool.now) (head_at tree.now rest.now tick) prefix.now)) }
{
    exports_tables::tables_lookup(
        tree,
        rest,
        tick,
        Tables {
            segments,
            views,
            runs,
            borrows,
            ids,
            pool,
        },
        prefix,
    )
}

#[unsafe(no_mangle)]
pub extern "C" fn tables_select(
    tree: &[u64; 12],
    rest: &[u64; 12],
    tick: i64,
    segments: &[u64],
    views: &[u64],
    runs: &[u64],
    borrows: &[u64],
    ids: &[u64],
    pool: &[u8],
    args: &[u8],
    range: &[u64; 6],
) -> Answer
    ensures { result ≡ told (selected (select_in range.now args.now (lent segments.now views.now runs.now borrows.now ids.now pool.now) (head_at tree.now rest.now tick))) }
{
    exports_tables::tables_select(
        tree,
        rest,
        tick,
        Tables {
            segments,
            views,
            runs,
            borrows,
            ids,
            pool,
        },
        args,
        range,
    )
}

#[unsafe(no_mangle)]
pub extern "C" fn tables_write(
    tree: &[u64; 12],
    rest: &[u64; 12],
    tick: i64,
    segments: &[u64],
    views: &[u64],
    runs: &[u64],
    borrows: &[u64],
    ids: &[u64],
    pool: &[u8],
    out: &mut [u8],
) -> Answer
    ensures { record { answer = result; out = out.new } ≡ wrote_reply (write_of limits01 (lent segments.now views.now runs.now borrows.now ids.now pool.now) (head_at tree.now rest.now tick) out.old) }
{
    exports_tables::tables_write(
        tree,
        rest,
        tick,
        Tables {
            segments,
            views,
            runs,
            borrows,
            ids,
            pool,
        },
        out,
    )
}

#[unsafe(no_mangle)]
pub extern "C" fn tables_read(
    s: &[u8],
    segments: &mut [u64],
    views: &mut [u64],
    runs: &mut [u64],
    borrows: &mut [u64],
    ids: &mut [u64],
    out_segments: &mut [u64],
    out_views: &mut [u64],
    out_runs: &mut [u64],
    out_borrows: &mut [u64],
    out_ids: &mut [u64],
    out_pool: &mut [u8],
) -> Laid
    ensures { record { laid = result; out = lent out_segments.new out_views.new out_runs.new out_borrows.new out_ids.new out_pool.new } ≡ read_reply (read_of limits01 s.now (lent segments.old views.old runs.old borrows.old ids.old s.now) (lent out_segments.old out_views.old out_runs.old out_borrows.old out_ids.old out_pool.old)) }
{
    exports_tables::tables_read(
        s,
        segments,
        views,
        runs,
        borrows,
        ids,
        out_segments,
        out_views,
        out_runs,
        out_borrows,
        out_ids,
        out_pool,
    )
}

#[unsafe(no_mangle)]
pub extern "C" fn tables_insert(
    tree: &[u64; 12],
    rest: &[u64; 12],
    tick: i64,
    segments: &[u64],
    views: &[u64],
    runs: &[u64],
    borrows: &[u64],
    ids: &[u64],
    pool: &[u8],
    prefix: &[u8],
    out_segments: &mut [u64],
    out_views: &mut [u64],
    out_runs: &mut [u64],
    out_borrows: &mut [u64],
    out_ids: &mut [u64],
    out_pool: &mut [u8],
) -> Laid
    ensures { record { laid = result; out = lent out_segments.new out_views.new out_runs.new out_borrows.new out_ids.new out_pool.new } ≡ insert_reply (insert_of limits01 (lent segments.now views.now runs.now borrows.now ids.now pool.now) (head_at tree.now rest.now tick) prefix.now (lent out_segments.old out_views.old out_runs.old out_borrows.old out_ids.old out_pool.old)) }
{
    exports_tables::tables_insert(
        tree,
        rest,
        tick,
        Tables {
            segments,
            views,
            runs,
            borrows,
            ids,
            pool,
        },
        prefix,
        out_segments,
        out_views,
        out_runs,
        out_borrows,
        out_ids,
        out_pool,
    )
}
