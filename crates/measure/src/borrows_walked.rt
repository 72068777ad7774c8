// The extractor's name and the borrows, walked.
ghost use Rattle.std.specs.Prelude.{◌≡◌, ◌+◌, ◌*◌, ◌/◌, ◌<◌, length};
ghost use Rattle.measure.specs.Walk.{name_walk, borrow_row_walk, borrow_walk, borrows_walk};

use crate::trees_walked::is_code;
use crate::views_walked::{key_step, window_step};
use records::{BorrowRow, Fill, Limits, Place, borrow_at};
use tables::Window;

pub fn name_step(lim: Limits, n: usize, name: Option<Place>, c: Fill) -> Option<Fill>
    ensures { result ≡ name_walk lim n name c }
{
    match name {
        None => Some(c),
        Some(p) => key_step(lim.name, lim.fill, n, p, c),
    }
}

// A borrow's ids are counted, not walked.
#[tactic(auto, using(crate::proofs::Walks::thens), unfolding(crate::specs::Walk::borrow_row_walk))]
fn borrow_row(lim: Limits, ids: &[u64], n: usize, r: BorrowRow, c: Fill) -> Option<Fill>
    ensures { result ≡ borrow_row_walk lim ids.now n r c }
{
    let d = key_step(lim.path, lim.fill, n, r.path, c)?;
    let more = Fill {
        segments: 0,
        views: 0,
        runs: 0,
        borrows: 0,
        ids: r.ids.count,
        bytes: 0,
    };
    window_step(lim.fill, ids.len() / 2, r.ids, more, d)
}

fn borrow_step(
    lim: Limits,
    ids: &[u64],
    borrows: &[u64],
    n: usize,
    i: usize,
    c: Fill,
) -> Option<Fill>
    requires { i < length borrows.now / 9 }
    ensures { result ≡ borrow_walk lim ids.now borrows.now n i c }
{
    let b = i * 9;
    if !is_code(borrows[b + 4]) {
        return None;
    }
    let r = borrow_at(borrows, i);
    borrow_row(lim, ids, n, r, c)
}

#[tactic(auto, using(crate::proofs::Walks::rows), unfolding(crate::specs::Walk::borrows_walk))]
pub fn borrows_walk(
    lim: Limits,
    ids: &[u64],
    borrows: &[u64],
    n: usize,
    w: Window,
    c: Fill,
) -> Option<Fill>
    ensures { result ≡ borrows_walk lim ids.now borrows.now n w c }
{
    let more = Fill {
        segments: 0,
        views: 0,
        runs: 0,
        borrows: w.count,
        ids: 0,
        bytes: 0,
    };
    let mut d = window_step(lim.fill, borrows.len() / 9, w, more, c)?;
    for k in 0..w.count {
        d = borrow_step(lim, ids, borrows, n, w.first + k, d)?;
    }
    Some(d)
}
