// The operations on tables that the caller holds, for programs in other languages: no bytes are taken apart. A manifest's own value is 24
// words and its clock tick; specs/Head.antt says which word is what. Each call judges the manifest anew.
#![tactic(auto)]

mod head_forms;

ghost use Rattle.std.specs.Prelude.{◌≡◌};
ghost use Rattle.records.specs.Decode.{lent_of};
ghost use Rattle.records.specs.Limits.{limits01};
ghost use Rattle.segments.specs.Lookup.{looked, looked_of};
ghost use Rattle.segments.specs.Select.{selected};
ghost use Rattle.manifest_write.specs.Answer.{write_of};
ghost use Rattle.manifest_rows.specs.Stored.{lent};
ghost use Rattle.exports_forms.specs.Replies.{told, wrote_reply};
ghost use Rattle.manifest_read.specs.Answer.{read_of};
ghost use Rattle.insert.specs.Insert.{insert_of};
ghost use Rattle.exports_tables.specs.Head.{head_at};
ghost use Rattle.exports_tables.specs.Calls.{select_in, read_reply, insert_reply};

use exports_forms::{
    Answer, is_odd, looked_answer, range_arg, refused_answer, selected_answer, written_answer,
};
use head_forms::{copied_answer, head_at, inserted_answer};
use records::{Refusal, Tables, limits_01};

// What a call answers that lays a manifest into tables: `tree`, `rest` and `tick` are its own value where there is one.
#[repr(C)]
#[derive(Clone, Copy)]
pub struct Laid {
    pub answer: Answer,
    pub tree: [u64; 12],
    pub rest: [u64; 12],
    pub tick: i64,
}

// ---- calls

// The tree of a prefix, as `manifest_lookup` answers it.
pub fn tables_lookup(
    tree: &[u64; 12],
    rest: &[u64; 12],
    tick: i64,
    tables: Tables,
    prefix: &[u8],
) -> Answer
    ensures { result ≡ told (looked (looked_of limits01 (lent_of tables.entry) (head_at tree.now rest.now tick) prefix.now)) }
{
    let lim = limits_01();
    let m = head_at(tree, rest, tick);
    let x = segments::tree_for_segment(lim, tables, m, prefix);
    looked_answer(x)
}

// The segments with some key in a range, as `manifest_select` answers it.
pub fn tables_select(
    tree: &[u64; 12],
    rest: &[u64; 12],
    tick: i64,
    tables: Tables,
    args: &[u8],
    range: &[u64; 6],
) -> Answer
    ensures { result ≡ told (selected (select_in range.now args.now (lent_of tables.entry) (head_at tree.now rest.now tick))) }
{
    if is_odd(range) {
        return refused_answer(Refusal::OverLimit);
    }
    let lim = limits_01();
    let m = head_at(tree, rest, tick);
    let r = range_arg(range);
    let x = segments::select_segments(lim, tables, m, args, r);
    selected_answer(x)
}

// Writes the manifest in the shortest forms: 0, and how many bytes of `out` it fills.
pub fn tables_write(
    tree: &[u64; 12],
    rest: &[u64; 12],
    tick: i64,
    tables: Tables,
    out: &mut [u8],
) -> Answer
    ensures { record { answer = result; out = out.new } ≡ wrote_reply (write_of limits01 (lent_of tables.entry) (head_at tree.now rest.now tick) out.old) }
{
    let lim = limits_01();
    let m = head_at(tree, rest, tick);
    let w = manifest_write::write(lim, tables, m, out);
    written_answer(w)
}

// Reads a manifest into the tables `out_segments` to `out_pool`: 0, and its own value.
pub fn tables_read(
    s: &[u8],
    segments: &mut [u64],
    views: &mut [u64],
    runs: &mut [u64],
    borrows: &mut [u64],
    ids: &mut [u64],
    out_segments: &mut [u64],
    out_views: &mut [u64],
    out_runs: &mut [u64],
    out_borrows: &mut [u64],
    out_ids: &mut [u64],
    out_pool: &mut [u8],
) -> Laid
    ensures { record { laid = result; out = lent out_segments.new out_views.new out_runs.new out_borrows.new out_ids.new out_pool.new } ≡ read_reply (read_of limits01 s.now (lent segments.old views.old runs.old borrows.old ids.old s.now) (lent out_segments.old out_views.old out_runs.old out_borrows.old out_ids.old out_pool.old)) }
{
    let lim = limits_01();
    let x = manifest_read::read(
        lim,
        s,
        segments,
        views,
        runs,
        borrows,
        ids,
        out_segments,
        out_views,
        out_runs,
        out_borrows,
        out_ids,
        out_pool,
    );
    copied_answer(x)
}

// The segment of a prefix: 0, then 0 and its index where it was held, or 1 and the index at which it entered with an empty tree; the manifest
// that it is then in is laid into the tables `out_segments` to `out_pool`.
pub fn tables_insert(
    tree: &[u64; 12],
    rest: &[u64; 12],
    tick: i64,
    tables: Tables,
    prefix: &[u8],
    out_segments: &mut [u64],
    out_views: &mut [u64],
    out_runs: &mut [u64],
    out_borrows: &mut [u64],
    out_ids: &mut [u64],
    out_pool: &mut [u8],
) -> Laid
    ensures { record { laid = result; out = lent out_segments.new out_views.new out_runs.new out_borrows.new out_ids.new out_pool.new } ≡ insert_reply (insert_of limits01 (lent_of tables.entry) (head_at tree.now rest.now tick) prefix.now (lent out_segments.old out_views.old out_runs.old out_borrows.old out_ids.old out_pool.old)) }
{
    let lim = limits_01();
    let m = head_at(tree, rest, tick);
    let x = insert::maybe_insert_tree(
        lim,
        tables,
        m,
        prefix,
        out_segments,
        out_views,
        out_runs,
        out_borrows,
        out_ids,
        out_pool,
    );
    inserted_answer(x)
}
