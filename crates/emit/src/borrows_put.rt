// Borrows with their ids, and the extractor's name.
ghost use Rattle.std.specs.Prelude.{◌≡◌, ◌+◌, ◌-◌, ◌*◌, ◌/◌, ◌≤◌, ◌<◌, length};
ghost use Rattle.tables.specs.Layout.{write, joined};
ghost use Rattle.records.specs.Row.{borrow_at, id_at};
ghost use Rattle.records.specs.Decode.{ids_in, borrow_in, borrows_in, name_in};
ghost use Rattle.records.specs.Fill.{plus, sum, segments, runs, ids as id_fill, key_fill, borrow_fill, name_keys};
ghost use Rattle.records.specs.Words.{borrow_words, id_words};
ghost use Rattle.records.specs.Layout.{run, borrow_row, borrow_ids, borrow_path, borrows_laid, ids_laid, name_row};

use crate::LaidName;
use crate::views_put::put_part;
use ids::SstId;
use records::{BorrowRow, Fill, Place, borrow_at, borrow_words, id_at, id_words};
use tables::{Window, held, put};

// Appends an id.
// inner
pub fn put_id(x: SstId, out_ids: &mut [u64], c: Fill) -> Fill
    requires { (c.ids + 1) * 2 ≤ length out_ids.old }
    ensures value { result ≡ plus c (id_fill 1) }
    ensures out_ids_after { out_ids.new ≡ write out_ids.old (c.ids * 2) (id_words x) }
{
    let row = id_words(x);
    put(&row, out_ids, c.ids * 2);
    Fill {
        segments: c.segments,
        views: c.views,
        runs: c.runs,
        borrows: c.borrows,
        ids: c.ids + 1,
        bytes: c.bytes,
    }
}

// Appends id `i` of a table.
fn put_id_at(ids: &[u64], i: usize, out_ids: &mut [u64], c: Fill) -> Fill
    requires i_in_bounds { i < length ids.now / 2 }
    requires ids_in_bounds { (c.ids + 1) * 2 ≤ length out_ids.old }
    ensures value { result ≡ plus c (id_fill 1) }
    ensures out_ids_after { out_ids.new ≡ write out_ids.old (c.ids * 2) (id_words (id_at ids.now i)) }
{
    put_id(id_at(ids, i), out_ids, c)
}

// Appends the ids of a window.
// inner
pub fn put_ids(ids: &[u64], w: Window, out_ids: &mut [u64], c: Fill) -> Fill
    requires { (c.ids + length (ids_in ids.now w)) * 2 ≤ length out_ids.old }
    ensures value { result ≡ plus c (id_fill (length (ids_in ids.now w))) }
    ensures out_ids_after { out_ids.new ≡ write out_ids.old (c.ids * 2) (ids_laid (ids_in ids.now w)) }
{
    let n = held(w, ids.len() / 2);
    let first = w.first;
    let mut to = c;
    for k in 0..n {
        to = put_id_at(ids, first + k, out_ids, to);
    }
    to
}

// Writes the row of a borrow.
// inner
pub fn put_borrow_row(b: BorrowRow, out_borrows: &mut [u64], i: usize)
    requires { i * 9 + 9 ≤ length out_borrows.old }
    ensures { out_borrows.new ≡ write out_borrows.old (i * 9) (borrow_words b) }
{
    let row = borrow_words(b);
    put(&row, out_borrows, i * 9);
}

// Appends a borrow and its ids.
// inner
pub fn put_borrow(
    b: BorrowRow,
    ids: &[u64],
    pool: &[u8],
    out_borrows: &mut [u64],
    out_ids: &mut [u64],
    out_pool: &mut [u8],
    c: Fill,
) -> Fill
    requires b_in_bounds { (c.borrows + (borrow_fill (borrow_in ids.now pool.now b)).borrows) * 9 ≤ length out_borrows.old }
    requires b_in_bounds_2 { (c.ids + (borrow_fill (borrow_in ids.now pool.now b)).ids) * 2 ≤ length out_ids.old }
    requires b_in_bounds_3 { c.bytes + (borrow_fill (borrow_in ids.now pool.now b)).bytes ≤ length out_pool.old }
    ensures value { result ≡ plus c (borrow_fill (borrow_in ids.now pool.now b)) }
    ensures out_borrows_after { out_borrows.new ≡ write out_borrows.old (c.borrows * 9) (borrow_words (borrow_row c (borrow_in ids.now pool.now b))) }
    ensures out_ids_after { out_ids.new ≡ write out_ids.old (c.ids * 2) (borrow_ids (borrow_in ids.now pool.now b)) }
    ensures out_pool_after { out_pool.new ≡ write out_pool.old c.bytes (borrow_path (borrow_in ids.now pool.now b)) }
{
    let source = b.source;
    let fin = b.fin;
    let w = b.ids;
    let past = put_part(b.path.at, b.path.len, pool, out_pool, c.bytes);
    let to = put_ids(ids, w, out_ids, c);
    let row = BorrowRow {
        path: Place {
            at: c.bytes,
            len: past - c.bytes,
        },
        source,
        fin,
        ids: Window {
            first: c.ids,
            count: to.ids - c.ids,
        },
    };
    put_borrow_row(row, out_borrows, c.borrows);
    Fill {
        segments: c.segments,
        views: c.views,
        runs: c.runs,
        borrows: c.borrows + 1,
        ids: to.ids,
        bytes: past,
    }
}

// Appends borrow `i` of a table.
fn put_borrow_at(
    borrows: &[u64],
    i: usize,
    ids: &[u64],
    pool: &[u8],
    out_borrows: &mut [u64],
    out_ids: &mut [u64],
    out_pool: &mut [u8],
    c: Fill,
) -> Fill
    requires i_in_bounds { i < length borrows.now / 9 }
    requires i_in_bounds_2 { (c.borrows + (borrow_fill (borrow_in ids.now pool.now (borrow_at borrows.now i))).borrows) * 9 ≤ length out_borrows.old }
    requires i_in_bounds_3 { (c.ids + (borrow_fill (borrow_in ids.now pool.now (borrow_at borrows.now i))).ids) * 2 ≤ length out_ids.old }
    requires i_in_bounds_4 { c.bytes + (borrow_fill (borrow_in ids.now pool.now (borrow_at borrows.now i))).bytes ≤ length out_pool.old }
    ensures value { result ≡ plus c (borrow_fill (borrow_in ids.now pool.now (borrow_at borrows.now i))) }
    ensures out_borrows_after { out_borrows.new ≡ write out_borrows.old (c.borrows * 9) (borrow_words (borrow_row c (borrow_in ids.now pool.now (borrow_at borrows.now i)))) }
    ensures out_ids_after { out_ids.new ≡ write out_ids.old (c.ids * 2) (borrow_ids (borrow_in ids.now pool.now (borrow_at borrows.now i))) }
    ensures out_pool_after { out_pool.new ≡ write out_pool.old c.bytes (borrow_path (borrow_in ids.now pool.now (borrow_at borrows.now i))) }
{
    put_borrow(
        borrow_at(borrows, i),
        ids,
        pool,
        out_borrows,
        out_ids,
        out_pool,
        c,
    )
}

// Appends the borrows of a window.
// inner
pub fn put_borrows(
    borrows: &[u64],
    w: Window,
    ids: &[u64],
    pool: &[u8],
    out_borrows: &mut [u64],
    out_ids: &mut [u64],
    out_pool: &mut [u8],
    c: Fill,
) -> Fill
    requires w_in_bounds { (c.borrows + (sum borrow_fill (borrows_in borrows.now ids.now pool.now w)).borrows) * 9 ≤ length out_borrows.old }
    requires w_in_bounds_2 { (c.ids + (sum borrow_fill (borrows_in borrows.now ids.now pool.now w)).ids) * 2 ≤ length out_ids.old }
    requires w_in_bounds_3 { c.bytes + (sum borrow_fill (borrows_in borrows.now ids.now pool.now w)).bytes ≤ length out_pool.old }
    ensures value { result ≡ plus c (sum borrow_fill (borrows_in borrows.now ids.now pool.now w)) }
    ensures out_borrows_after { out_borrows.new ≡ write out_borrows.old (c.borrows * 9) (borrows_laid c (borrows_in borrows.now ids.now pool.now w)) }
    ensures out_ids_after { out_ids.new ≡ write out_ids.old (c.ids * 2) (joined borrow_ids (borrows_in borrows.now ids.now pool.now w)) }
    ensures out_pool_after { out_pool.new ≡ write out_pool.old c.bytes (joined borrow_path (borrows_in borrows.now ids.now pool.now w)) }
{
    let n = held(w, borrows.len() / 9);
    let first = w.first;
    let mut to = c;
    for k in 0..n {
        to = put_borrow_at(
            borrows,
            first + k,
            ids,
            pool,
            out_borrows,
            out_ids,
            out_pool,
            to,
        );
    }
    to
}

// ---- the extractor's name

// Appends the name, if there is one.
// inner
pub fn put_name(n: Option<Place>, pool: &[u8], out_pool: &mut [u8], c: Fill) -> LaidName
    requires { c.bytes + (sum key_fill (name_keys (name_in pool.now n))).bytes ≤ length out_pool.old }
    ensures value { result ≡ record { name = name_row c.bytes (name_in pool.now n); past = plus c (sum key_fill (name_keys (name_in pool.now n))) } }
    ensures out_pool_after { out_pool.new ≡ write out_pool.old c.bytes (run (name_keys (name_in pool.now n))) }
{
    match n {
        None => LaidName {
            name: None,
            past: c,
        },
        Some(p) => {
            let past = put_part(p.at, p.len, pool, out_pool, c.bytes);
            LaidName {
                name: Some(Place {
                    at: c.bytes,
                    len: past - c.bytes,
                }),
                past: Fill {
                    segments: c.segments,
                    views: c.views,
                    runs: c.runs,
                    borrows: c.borrows,
                    ids: c.ids,
                    bytes: past,
                },
            }
        }
    }
}
