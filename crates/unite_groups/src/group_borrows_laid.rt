// Groups measured, and laid as borrows.
ghost use Rattle.std.specs.Prelude.{◌≡◌, ◌+◌, ◌*◌, ◌/◌, ◌≤◌, ◌<◌, length};
ghost use Rattle.tables.specs.Layout.{write, joined};
ghost use Rattle.records.specs.Fill.{plus, sum, borrow_fill};
ghost use Rattle.records.specs.Layout.{borrow_row, borrows_laid, borrow_ids, borrow_path};
ghost use Rattle.records.specs.Words.{borrow_words};
ghost use Rattle.measure.specs.Walk.{add_of};
ghost use Rattle.borrows.specs.Clone.{uuids_of, fresh_at};
ghost use Rattle.unite_groups.specs.Steps.{lent_as};
ghost use Rattle.unite_groups.specs.Chosen.{lent_from, member_fill};
ghost use Rattle.unite_groups.specs.Rows.{member_at, members_in};

use crate::group_rows::group_at;
use emit::put_borrow;
use ids::Uuid;
use keys::part;
use measure::{add, fits_in};
use records::{BorrowRow, Fill};
use tables::held;

// What group `i` fills as a borrow.
fn group_fill(groups: &[u64], i: usize, work: &[u64], pool: &[u8]) -> Fill
    requires { (i + 1) * 6 ≤ length groups.now }
    ensures { result ≡ member_fill (member_at groups.now work.now pool.now i) }
{
    let h = group_at(groups, i);
    let p = h.path;
    let path = part(pool, p.at, p.len);
    Fill {
        segments: 0,
        views: 0,
        runs: 0,
        borrows: 1,
        ids: held(h.ids, work.len() / 2),
        bytes: path.len(),
    }
}

// What the first `n` groups fill as borrows, with `c`, where it is at most `most`.
// inner
pub fn measure_groups(
    most: Fill,
    groups: &[u64],
    n: usize,
    work: &[u64],
    pool: &[u8],
    c: Fill,
) -> Option<Fill>
    requires { n * 6 ≤ length groups.now }
    ensures { result ≡ add_of most c (sum member_fill (members_in groups.now work.now pool.now n)) }
{
    if !fits_in(c, most) {
        return None;
    }
    let mut d = c;
    for k in 0..n {
        d = add(most, d, group_fill(groups, k, work, pool))?;
    }
    Some(d)
}

// The n-th fresh UUID; zero where none was lent.
fn fresh_or_zero(fresh: &[u64], n: usize) -> Uuid
    ensures { result ≡ fresh_at (uuids_of fresh.now) n }
{
    if n < fresh.len() / 2 {
        return Uuid(fresh[n * 2], fresh[n * 2 + 1]);
    }
    Uuid(0, 0)
}

// Appends group `i` as a borrow, with fresh UUID `i`.
fn put_group_at(
    groups: &[u64],
    i: usize,
    work: &[u64],
    pool: &[u8],
    fresh: &[u64],
    out_borrows: &mut [u64],
    out_ids: &mut [u64],
    out_pool: &mut [u8],
    c: Fill,
) -> Fill
    requires i_in_bounds { (i + 1) * 6 ≤ length groups.now }
    requires i_in_bounds_2 { (c.borrows + (borrow_fill (lent_as (uuids_of fresh.now) i (member_at groups.now work.now pool.now i))).borrows) * 9 ≤ length out_borrows.old }
    requires i_in_bounds_3 { (c.ids + (borrow_fill (lent_as (uuids_of fresh.now) i (member_at groups.now work.now pool.now i))).ids) * 2 ≤ length out_ids.old }
    requires i_in_bounds_4 { c.bytes + (borrow_fill (lent_as (uuids_of fresh.now) i (member_at groups.now work.now pool.now i))).bytes ≤ length out_pool.old }
    ensures value { result ≡ plus c (borrow_fill (lent_as (uuids_of fresh.now) i (member_at groups.now work.now pool.now i))) }
    ensures out_borrows_after { out_borrows.new ≡ write out_borrows.old (c.borrows * 9) (borrow_words (borrow_row c (lent_as (uuids_of fresh.now) i (member_at groups.now work.now pool.now i)))) }
    ensures out_ids_after { out_ids.new ≡ write out_ids.old (c.ids * 2) (borrow_ids (lent_as (uuids_of fresh.now) i (member_at groups.now work.now pool.now i))) }
    ensures out_pool_after { out_pool.new ≡ write out_pool.old c.bytes (borrow_path (lent_as (uuids_of fresh.now) i (member_at groups.now work.now pool.now i))) }
{
    let h = group_at(groups, i);
    let u = fresh_or_zero(fresh, i);
    let row = BorrowRow {
        path: h.path,
        source: h.checkpoint,
        fin: Some(u),
        ids: h.ids,
    };
    put_borrow(row, work, pool, out_borrows, out_ids, out_pool, c)
}

// Appends the first `n` groups as borrows, with fresh final checkpoints in their order.
// inner
pub fn put_groups(
    groups: &[u64],
    n: usize,
    work: &[u64],
    pool: &[u8],
    fresh: &[u64],
    out_borrows: &mut [u64],
    out_ids: &mut [u64],
    out_pool: &mut [u8],
    c: Fill,
) -> Fill
    requires n_in_bounds { n * 6 ≤ length groups.now }
    requires n_in_bounds_2 { (c.borrows + (sum member_fill (members_in groups.now work.now pool.now n)).borrows) * 9 ≤ length out_borrows.old }
    requires n_in_bounds_3 { (c.ids + (sum member_fill (members_in groups.now work.now pool.now n)).ids) * 2 ≤ length out_ids.old }
    requires n_in_bounds_4 { c.bytes + (sum member_fill (members_in groups.now work.now pool.now n)).bytes ≤ length out_pool.old }
    ensures value { result ≡ plus c (sum member_fill (members_in groups.now work.now pool.now n)) }
    ensures out_borrows_after { out_borrows.new ≡ write out_borrows.old (c.borrows * 9) (borrows_laid c (lent_from (uuids_of fresh.now) 0 (members_in groups.now work.now pool.now n))) }
    ensures out_ids_after { out_ids.new ≡ write out_ids.old (c.ids * 2) (joined borrow_ids (lent_from (uuids_of fresh.now) 0 (members_in groups.now work.now pool.now n))) }
    ensures out_pool_after { out_pool.new ≡ write out_pool.old c.bytes (joined borrow_path (lent_from (uuids_of fresh.now) 0 (members_in groups.now work.now pool.now n))) }
{
    let mut to = c;
    for k in 0..n {
        to = put_group_at(
            groups,
            k,
            work,
            pool,
            fresh,
            out_borrows,
            out_ids,
            out_pool,
            to,
        );
    }
    to
}
