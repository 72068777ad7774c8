// Rows of borrows and their ids into the lent working tables.
ghost use Rattle.std.specs.Prelude.{◌+◌, ◌≤◌, ◌<◌};
ghost use Rattle.manifest_values.specs.Read.{many, sst_id_at, borrow_at};
ghost use Rattle.manifest_rows.specs.Stored.{Filled, Steps, table, Under, two, Moves, IdStep, BorrowStep};

use crate::Cursor;
use crate::heads_read::borrow_head;
use crate::views_filled::store;
use ids::SstId;
use records::BorrowRow;
use tables::Window;

// Reads an id and stores it.
#[tactic(auto, using(crate::proofs::Borrows::id_filled))]
fn fill_id(s: &[u8], at: usize, ids: &mut [u64], i: usize) -> Result<usize, usize>
    requires { i ≤ at }
    ensures { Filled IdStep Under (sst_id_at s.now at) (table ids.old i) (table ids.new (i + 1)) result }
{
    let (hi, lo, next) = msgpack::id_at(s, at)?;
    let words = records::id_words(SstId(hi, lo));
    store(&words, i, ids);
    Ok(next)
}

// Reads n ids in a row.
#[tactic(auto, using(crate::proofs::Turns::turns))]
fn fill_ids(s: &[u8], at: usize, n: u64, ids: &mut [u64], v: usize) -> Result<usize, usize>
    requires { v ≤ at }
    ensures { Filled (Steps IdStep) Under (many (sst_id_at s.now) n at) (table ids.old v) (table ids.new (v + n)) result }
{
    let mut p = at;
    for k in 0..n {
        p = fill_id(s, p, ids, v + k as usize)?;
    }
    Ok(p)
}

// Reads a borrow: its ids, then its own row.
#[tactic(auto, using(crate::proofs::Borrows::borrow_reads))]
fn fill_borrow(
    s: &[u8],
    at: usize,
    borrows: &mut [u64],
    ids: &mut [u64],
    c: Cursor,
) -> Result<(usize, Cursor), usize>
    requires { (c.outer ≤ at) × (c.inner ≤ at) }
    ensures { Moves (BorrowStep s.now) (borrow_at s.now at) (two borrows.old ids.old c) (λ d. two borrows.new ids.new d) result }
{
    let (h, p) = borrow_head(s, at)?;
    let q = fill_ids(s, p, h.ids, ids, c.inner)?;
    let e = msgpack::rest_at(s, q, h.parts, 4)?;
    let count = h.ids as usize;
    let words = records::borrow_words(BorrowRow {
        path: h.path,
        source: h.source,
        fin: h.fin,
        ids: Window {
            first: c.inner,
            count,
        },
    });
    store(&words, c.outer, borrows);
    let next = Cursor {
        outer: c.outer + 1,
        inner: c.inner + count,
    };
    Ok((e, next))
}

// Reads n borrows in a row.
#[tactic(auto, using(crate::proofs::Turns::turns))]
pub fn fill_borrows(
    s: &[u8],
    at: usize,
    n: u64,
    borrows: &mut [u64],
    ids: &mut [u64],
    c: Cursor,
) -> Result<(usize, Cursor), usize>
    requires { (c.outer ≤ at) × (c.inner ≤ at) }
    ensures { Moves (Steps (BorrowStep s.now)) (many (borrow_at s.now) n at) (two borrows.old ids.old c) (λ d. two borrows.new ids.new d) result }
{
    let mut p = at;
    let mut d = c;
    for _ in 0..n {
        (p, d) = fill_borrow(s, p, borrows, ids, d)?;
    }
    Ok((p, d))
}
