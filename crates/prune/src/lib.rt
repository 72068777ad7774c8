// Projection's last step: borrowed ids that no view uses go, then borrows with no ids. One pass over the borrowed ids to measure and one
// to write, with a membership test over the ids in use for each: at the limits of L1 at most 512 times 512 comparisons of two words.
#![tactic(auto)]

ghost use Rattle.std.specs.Prelude.{◌≡◌, true, [], ◌∷◌, ◌+◌, ◌-◌, ◌*◌, ◌/◌, ◌≤◌, ◌<◌, length};
ghost use Rattle.tables.specs.Layout.{write, joined};
ghost use Rattle.ids.specs.Names.{ids_of};
ghost use Rattle.records.specs.Row.{borrow_at, id_at};
ghost use Rattle.records.specs.Words.{borrow_words};
ghost use Rattle.records.specs.Fill.{plus, sum, fits, ids as id_fill, borrow_fill};
ghost use Rattle.records.specs.Layout.{borrows_laid, borrow_ids, borrow_path, ids_laid};
ghost use Rattle.records.specs.Decode.{ids_in, borrow_in, borrows_in};
ghost use Rattle.measure.specs.Walk.{add_of};
ghost use Rattle.prune.specs.Prune.{used_only, kept_borrow, pruned};

use emit::{put_borrow_row, put_id};
use ids::names;
use keys::part;
use measure::{add, fits_in};
use records::{BorrowRow, Fill, Place, borrow_at, id_at};
use tables::{Window, held, put};

// ---- the ids of a window that are in use

// 1 if id `i` of a table is in use.
fn used_at(ids: &[u64], i: usize, used: &[u64]) -> usize
    requires { i < length ids.now / 2 }
    ensures { result ≡ length (used_only (ids_of used.now) (id_at ids.now i ∷ [])) }
{
    if names(used, id_at(ids, i)) {
        return 1;
    }
    0
}

// How many are in use.
fn count_used(ids: &[u64], w: Window, used: &[u64]) -> usize
    ensures { result ≡ length (used_only (ids_of used.now) (ids_in ids.now w)) }
{
    let n = held(w, ids.len() / 2);
    let mut m = 0;
    for k in 0..n {
        m += used_at(ids, w.first + k, used);
    }
    m
}

// Appends id `i` of a table, if it is in use.
fn put_used_at(ids: &[u64], i: usize, used: &[u64], out_ids: &mut [u64], c: Fill) -> Fill
    requires i_in_bounds { i < length ids.now / 2 }
    requires i_in_bounds_2 { (c.ids + length (used_only (ids_of used.now) (id_at ids.now i ∷ []))) * 2 ≤ length out_ids.old }
    ensures value { result ≡ plus c (id_fill (length (used_only (ids_of used.now) (id_at ids.now i ∷ [])))) }
    ensures out_ids_after { out_ids.new ≡ write out_ids.old (c.ids * 2) (ids_laid (used_only (ids_of used.now) (id_at ids.now i ∷ []))) }
{
    let x = id_at(ids, i);
    if names(used, x) {
        return put_id(x, out_ids, c);
    }
    c
}

// Appends those of a window that are in use.
fn put_used(ids: &[u64], w: Window, used: &[u64], out_ids: &mut [u64], c: Fill) -> Fill
    requires { (c.ids + length (used_only (ids_of used.now) (ids_in ids.now w))) * 2 ≤ length out_ids.old }
    ensures value { result ≡ plus c (id_fill (length (used_only (ids_of used.now) (ids_in ids.now w)))) }
    ensures out_ids_after { out_ids.new ≡ write out_ids.old (c.ids * 2) (ids_laid (used_only (ids_of used.now) (ids_in ids.now w))) }
{
    let n = held(w, ids.len() / 2);
    let mut to = c;
    for k in 0..n {
        to = put_used_at(ids, w.first + k, used, out_ids, to);
    }
    to
}

// ---- what is left, measured: each part is added to `c`, which is at most `most`, and the first that is too much ends the walk

// Adds what is left of a borrow.
fn add_kept(
    most: Fill,
    b: BorrowRow,
    ids: &[u64],
    pool: &[u8],
    used: &[u64],
    c: Fill,
) -> Option<Fill>
    requires { fits c most ≡ true }
    ensures { result ≡ add_of most c (sum borrow_fill (kept_borrow (borrow_in ids.now pool.now b) (used_only (ids_of used.now) (borrow_in ids.now pool.now b).ids))) }
{
    let n = count_used(ids, b.ids, used);
    if n == 0 {
        return Some(c);
    }
    let path = part(pool, b.path.at, b.path.len);
    add(
        most,
        c,
        Fill {
            segments: 0,
            views: 0,
            runs: 0,
            borrows: 1,
            ids: n,
            bytes: path.len(),
        },
    )
}

// Adds what is left of borrow `i` of a table.
fn add_kept_at(
    most: Fill,
    borrows: &[u64],
    i: usize,
    ids: &[u64],
    pool: &[u8],
    used: &[u64],
    c: Fill,
) -> Option<Fill>
    requires i_in_bounds { i < length borrows.now / 9 }
    requires most_value { fits c most ≡ true }
    ensures { result ≡ add_of most c (sum borrow_fill (kept_borrow (borrow_in ids.now pool.now (borrow_at borrows.now i)) (used_only (ids_of used.now) (borrow_in ids.now pool.now (borrow_at borrows.now i)).ids))) }
{
    add_kept(most, borrow_at(borrows, i), ids, pool, used, c)
}

// What is left of the borrows of a window, measured: what that and `c` fill, where it is at most `most`. The ids in use are lent, two
// words each.
// inner
pub fn measure_pruned(
    most: Fill,
    borrows: &[u64],
    w: Window,
    ids: &[u64],
    pool: &[u8],
    used: &[u64],
    c: Fill,
) -> Option<Fill>
    ensures { result ≡ add_of most c (sum borrow_fill (pruned (ids_of used.now) (borrows_in borrows.now ids.now pool.now w))) }
{
    if !fits_in(c, most) {
        return None;
    }
    let n = held(w, borrows.len() / 9);
    let mut d = c;
    for k in 0..n {
        d = add_kept_at(most, borrows, w.first + k, ids, pool, used, d)?;
    }
    Some(d)
}

// ---- what is left, written

// Writes the row of a borrow whose path was laid from `c` to `past`, its ids from `c` to `to`.
fn put_row(b: BorrowRow, out_borrows: &mut [u64], c: Fill, past: usize, to: Fill) -> Fill
    requires { (c.bytes ≤ past) × (c.ids ≤ to.ids) × (c.borrows * 9 + 9 ≤ length out_borrows.old) }
    ensures value { result ≡ record { segments = c.segments; views = c.views; runs = c.runs; borrows = c.borrows + 1; ids = to.ids; bytes = past } }
    ensures out_borrows_after { out_borrows.new ≡ write out_borrows.old (c.borrows * 9) (borrow_words (record { path = record { at = c.bytes; len = past - c.bytes }; source = b.source; fin = b.fin; ids = record { first = c.ids; count = to.ids - c.ids } })) }
{
    let row = BorrowRow {
        path: Place {
            at: c.bytes,
            len: past - c.bytes,
        },
        source: b.source,
        fin: b.fin,
        ids: Window {
            first: c.ids,
            count: to.ids - c.ids,
        },
    };
    put_borrow_row(row, out_borrows, c.borrows);
    Fill {
        segments: c.segments,
        views: c.views,
        runs: c.runs,
        borrows: c.borrows + 1,
        ids: to.ids,
        bytes: past,
    }
}

// Appends what is left of a borrow: its path and row only where some of its ids are left.
fn put_kept(
    b: BorrowRow,
    ids: &[u64],
    pool: &[u8],
    used: &[u64],
    out_borrows: &mut [u64],
    out_ids: &mut [u64],
    out_pool: &mut [u8],
    c: Fill,
) -> Fill
    requires b_in_bounds { (c.borrows + (sum borrow_fill (kept_borrow (borrow_in ids.now pool.now b) (used_only (ids_of used.now) (borrow_in ids.now pool.now b).ids))).borrows) * 9 ≤ length out_borrows.old }
    requires b_in_bounds_2 { (c.ids + (sum borrow_fill (kept_borrow (borrow_in ids.now pool.now b) (used_only (ids_of used.now) (borrow_in ids.now pool.now b).ids))).ids) * 2 ≤ length out_ids.old }
    requires b_in_bounds_3 { c.bytes + (sum borrow_fill (kept_borrow (borrow_in ids.now pool.now b) (used_only (ids_of used.now) (borrow_in ids.now pool.now b).ids))).bytes ≤ length out_pool.old }
    ensures value { result ≡ plus c (sum borrow_fill (kept_borrow (borrow_in ids.now pool.now b) (used_only (ids_of used.now) (borrow_in ids.now pool.now b).ids))) }
    ensures out_borrows_after { out_borrows.new ≡ write out_borrows.old (c.borrows * 9) (borrows_laid c (kept_borrow (borrow_in ids.now pool.now b) (used_only (ids_of used.now) (borrow_in ids.now pool.now b).ids))) }
    ensures out_ids_after { out_ids.new ≡ write out_ids.old (c.ids * 2) (joined borrow_ids (kept_borrow (borrow_in ids.now pool.now b) (used_only (ids_of used.now) (borrow_in ids.now pool.now b).ids))) }
    ensures out_pool_after { out_pool.new ≡ write out_pool.old c.bytes (joined borrow_path (kept_borrow (borrow_in ids.now pool.now b) (used_only (ids_of used.now) (borrow_in ids.now pool.now b).ids))) }
{
    let to = put_used(ids, b.ids, used, out_ids, c);
    if to.ids == c.ids {
        return to;
    }
    let path = part(pool, b.path.at, b.path.len);
    let past = put(path, out_pool, c.bytes);
    put_row(b, out_borrows, c, past, to)
}

// Appends what is left of borrow `i` of a table.
fn put_kept_at(
    borrows: &[u64],
    i: usize,
    ids: &[u64],
    pool: &[u8],
    used: &[u64],
    out_borrows: &mut [u64],
    out_ids: &mut [u64],
    out_pool: &mut [u8],
    c: Fill,
) -> Fill
    requires i_in_bounds { i < length borrows.now / 9 }
    requires i_in_bounds_2 { (c.borrows + (sum borrow_fill (kept_borrow (borrow_in ids.now pool.now (borrow_at borrows.now i)) (used_only (ids_of used.now) (borrow_in ids.now pool.now (borrow_at borrows.now i)).ids))).borrows) * 9 ≤ length out_borrows.old }
    requires i_in_bounds_3 { (c.ids + (sum borrow_fill (kept_borrow (borrow_in ids.now pool.now (borrow_at borrows.now i)) (used_only (ids_of used.now) (borrow_in ids.now pool.now (borrow_at borrows.now i)).ids))).ids) * 2 ≤ length out_ids.old }
    requires i_in_bounds_4 { c.bytes + (sum borrow_fill (kept_borrow (borrow_in ids.now pool.now (borrow_at borrows.now i)) (used_only (ids_of used.now) (borrow_in ids.now pool.now (borrow_at borrows.now i)).ids))).bytes ≤ length out_pool.old }
    ensures value { result ≡ plus c (sum borrow_fill (kept_borrow (borrow_in ids.now pool.now (borrow_at borrows.now i)) (used_only (ids_of used.now) (borrow_in ids.now pool.now (borrow_at borrows.now i)).ids))) }
    ensures out_borrows_after { out_borrows.new ≡ write out_borrows.old (c.borrows * 9) (borrows_laid c (kept_borrow (borrow_in ids.now pool.now (borrow_at borrows.now i)) (used_only (ids_of used.now) (borrow_in ids.now pool.now (borrow_at borrows.now i)).ids))) }
    ensures out_ids_after { out_ids.new ≡ write out_ids.old (c.ids * 2) (joined borrow_ids (kept_borrow (borrow_in ids.now pool.now (borrow_at borrows.now i)) (used_only (ids_of used.now) (borrow_in ids.now pool.now (borrow_at borrows.now i)).ids))) }
    ensures out_pool_after { out_pool.new ≡ write out_pool.old c.bytes (joined borrow_path (kept_borrow (borrow_in ids.now pool.now (borrow_at borrows.now i)) (used_only (ids_of used.now) (borrow_in ids.now pool.now (borrow_at borrows.now i)).ids))) }
{
    put_kept(
        borrow_at(borrows, i),
        ids,
        pool,
        used,
        out_borrows,
        out_ids,
        out_pool,
        c,
    )
}

// Appends what is left of the borrows of a window.
// inner
pub fn prune_external_sst_ids(
    borrows: &[u64],
    w: Window,
    ids: &[u64],
    pool: &[u8],
    used: &[u64],
    out_borrows: &mut [u64],
    out_ids: &mut [u64],
    out_pool: &mut [u8],
    c: Fill,
) -> Fill
    requires w_in_bounds { (c.borrows + (sum borrow_fill (pruned (ids_of used.now) (borrows_in borrows.now ids.now pool.now w))).borrows) * 9 ≤ length out_borrows.old }
    requires w_in_bounds_2 { (c.ids + (sum borrow_fill (pruned (ids_of used.now) (borrows_in borrows.now ids.now pool.now w))).ids) * 2 ≤ length out_ids.old }
    requires w_in_bounds_3 { c.bytes + (sum borrow_fill (pruned (ids_of used.now) (borrows_in borrows.now ids.now pool.now w))).bytes ≤ length out_pool.old }
    ensures value { result ≡ plus c (sum borrow_fill (pruned (ids_of used.now) (borrows_in borrows.now ids.now pool.now w))) }
    ensures out_borrows_after { out_borrows.new ≡ write out_borrows.old (c.borrows * 9) (borrows_laid c (pruned (ids_of used.now) (borrows_in borrows.now ids.now pool.now w))) }
    ensures out_ids_after { out_ids.new ≡ write out_ids.old (c.ids * 2) (joined borrow_ids (pruned (ids_of used.now) (borrows_in borrows.now ids.now pool.now w))) }
    ensures out_pool_after { out_pool.new ≡ write out_pool.old c.bytes (joined borrow_path (pruned (ids_of used.now) (borrows_in borrows.now ids.now pool.now w))) }
{
    let n = held(w, borrows.len() / 9);
    let mut to = c;
    for k in 0..n {
        to = put_kept_at(
            borrows,
            w.first + k,
            ids,
            pool,
            used,
            out_borrows,
            out_ids,
            out_pool,
            to,
        );
    }
    to
}
