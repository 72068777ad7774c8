// Id sets and rows of groups.
ghost use Rattle.std.specs.Prelude.{◌≡◌, true, ◌+◌, ◌*◌, ◌/◌, ◌≤◌, ◌<◌, length};
ghost use Rattle.tables.specs.Layout.{write, up_to};
ghost use Rattle.records.specs.Layout.{ids_laid};
ghost use Rattle.records.specs.Decode.{ids_in};
ghost use Rattle.unite_groups.specs.Sets.{sst_order, id_entered, id_set};
ghost use Rattle.unite_groups.specs.Steps.{spot_of, group_at, group_words, row_order};
ghost use Rattle.unite_groups.specs.Groups.{list_order};

use crate::{GroupRow, Spot};
use ids::{SstId, Uuid, order};
use keys::{compare, part};
use records::{Place, id_at, id_words};
use shift::shift_words;
use std::cmp::Ordering;
use tables::{Window, held, ix, put};

// The place of `x` among the ids of a window, which ascend.
fn id_spot(work: &[u64], w: Window, x: SstId) -> Spot
    ensures { result ≡ spot_of (sst_order x) (ids_in work.now w) }
{
    let n = held(w, work.len() / 2);
    for k in 0..n {
        match order(x, id_at(work, w.first + k)) {
            Ordering::Less => {
                return Spot { at: k, held: false };
            }
            Ordering::Equal => {
                return Spot { at: k, held: true };
            }
            Ordering::Greater => {}
        }
    }
    Spot { at: n, held: false }
}

// Enters `x` into the id set of a window, and gives how many there are then.
fn enter_id(work: &mut [u64], w: Window, x: SstId) -> usize
    requires { (w.first + w.count + 1) * 2 ≤ length work.old }
    ensures value { result ≡ length (id_entered x (ids_in work.old w)) }
    ensures work_after { work.new ≡ write work.old (w.first * 2) (ids_laid (id_entered x (ids_in work.old w))) }
{
    let s = id_spot(work, w, x);
    if s.held {
        return w.count;
    }
    let at = (w.first + s.at) * 2;
    shift_words(work, at, (w.first + w.count) * 2, 2);
    let row = id_words(x);
    put(&row, work, at);
    w.count + 1
}

// Lays the ids of a window as an id set into the working list from `first` on, and gives how many there are.
pub fn enter_ids(ids: &[u64], from: Window, work: &mut [u64], first: usize) -> usize
    requires { (first + length (ids_in ids.now from)) * 2 ≤ length work.old }
    ensures value { result ≡ length (id_set (ids_in ids.now from)) }
    ensures work_after { work.new ≡ write work.old (first * 2) (ids_laid (id_set (ids_in ids.now from))) }
{
    let n = held(from, ids.len() / 2);
    let mut count = 0;
    for k in 0..n {
        let x = id_at(ids, from.first + k);
        let w = Window { first, count };
        count = enter_id(work, w, x);
    }
    count
}

// ---- rows of groups

// How two id lists stand, element by element.
fn list_order(work: &[u64], a: Window, b: Window) -> Ordering
    ensures { result ≡ list_order (ids_in work.now a) (ids_in work.now b) }
{
    let n = held(a, work.len() / 2);
    let m = held(b, work.len() / 2);
    for k in 0..n {
        if m <= k {
            return Ordering::Greater;
        }
        match order(id_at(work, a.first + k), id_at(work, b.first + k)) {
            Ordering::Less => {
                return Ordering::Less;
            }
            Ordering::Equal => {}
            Ordering::Greater => {
                return Ordering::Greater;
            }
        }
    }
    if n < m {
        return Ordering::Less;
    }
    Ordering::Equal
}

// Row `i` of the groups.
pub fn group_at(groups: &[u64], i: usize) -> GroupRow
    requires { (i + 1) * 6 ≤ length groups.now }
    ensures { result ≡ group_at groups.now i }
{
    let b = i * 6;
    GroupRow {
        path: Place {
            at: ix(groups[b]),
            len: ix(groups[b + 1]),
        },
        checkpoint: Uuid(groups[b + 2], groups[b + 3]),
        ids: Window {
            first: ix(groups[b + 4]),
            count: ix(groups[b + 5]),
        },
    }
}

fn group_words(g: GroupRow) -> [u64; 6]
    ensures { result ≡ group_words g }
{
    [
        g.path.at as u64,
        g.path.len as u64,
        g.checkpoint.0,
        g.checkpoint.1,
        g.ids.first as u64,
        g.ids.count as u64,
    ]
}

pub fn put_group(g: GroupRow, groups: &mut [u64], i: usize)
    requires { (i + 1) * 6 ≤ length groups.old }
    ensures { groups.new ≡ write groups.old (i * 6) (group_words g) }
{
    let row = group_words(g);
    put(&row, groups, i * 6);
}

// How a row stands to row `i`: path bytes, then id list.
fn group_order(groups: &[u64], i: usize, work: &[u64], pool: &[u8], g: GroupRow) -> Ordering
    requires { (i + 1) * 6 ≤ length groups.now }
    ensures { result ≡ row_order work.now pool.now g (group_at groups.now i) }
{
    let h = group_at(groups, i);
    let p = g.path;
    let q = h.path;
    match compare(part(pool, p.at, p.len), part(pool, q.at, q.len)) {
        Ordering::Less => Ordering::Less,
        Ordering::Equal => {
            let a = g.ids;
            let b = h.ids;
            list_order(work, a, b)
        }
        Ordering::Greater => Ordering::Greater,
    }
}

// The place of a row among the first `n`.
pub fn group_spot(groups: &[u64], n: usize, work: &[u64], pool: &[u8], g: GroupRow) -> Spot
    requires { n * 6 ≤ length groups.now }
    ensures { result ≡ spot_of (row_order work.now pool.now g) (up_to (group_at groups.now) n) }
{
    for k in 0..n {
        match group_order(groups, k, work, pool, g) {
            Ordering::Less => {
                return Spot { at: k, held: false };
            }
            Ordering::Equal => {
                return Spot { at: k, held: true };
            }
            Ordering::Greater => {}
        }
    }
    Spot { at: n, held: false }
}
