// Windows, keys and views, walked: what they fill, and whether they lie in their tables.
ghost use Rattle.std.specs.Prelude.{◌≡◌, ◌+◌, ◌*◌, ◌/◌, ◌≤◌, ◌<◌, length};
ghost use Rattle.records.specs.Row.{place_at};
ghost use Rattle.measure.specs.Walk.{window_walk, key_walk, last_walk, bound_walk, bounds_walk, visible_walk, view_walk, views_walk};

use crate::add;
use records::{Fill, Limits, Place};
use tables::{Window, ix, lies_in};

// A window of a table's `rows`, or of a pool's bytes, that fills `more`.
pub fn window_step(most: Fill, rows: usize, w: Window, more: Fill, c: Fill) -> Option<Fill>
    ensures { result ≡ window_walk most rows w more c }
{
    if !lies_in(w, rows) {
        return None;
    }
    add(most, c, more)
}

// A byte string of at most `longest` bytes, in a pool of `n`.
pub fn key_step(longest: usize, most: Fill, n: usize, p: Place, c: Fill) -> Option<Fill>
    ensures { result ≡ key_walk longest most n p c }
{
    if longest < p.len {
        return None;
    }
    let w = Window {
        first: p.at,
        count: p.len,
    };
    let more = Fill {
        segments: 0,
        views: 0,
        runs: 0,
        borrows: 0,
        ids: 0,
        bytes: p.len,
    };
    window_step(most, n, w, more, c)
}

// The same, its place in two words.
fn key_at(longest: usize, most: Fill, t: &[u64], b: usize, n: usize, c: Fill) -> Option<Fill>
    requires { b + 2 ≤ length t.now }
    ensures { result ≡ key_walk longest most n (place_at t.now b) c }
{
    let p = Place {
        at: ix(t[b]),
        len: ix(t[b + 1]),
    };
    key_step(longest, most, n, p, c)
}

// ---- a view's row

fn last_step(lim: Limits, t: &[u64], b: usize, n: usize, c: Fill) -> Option<Fill>
    requires { b + 3 ≤ length t.now }
    ensures { result ≡ last_walk lim t.now b n c }
{
    match t[b] {
        0 => Some(c),
        1 => key_at(lim.key, lim.fill, t, b + 1, n, c),
        _ => None,
    }
}

fn bound_step(lim: Limits, t: &[u64], b: usize, n: usize, c: Fill) -> Option<Fill>
    requires { b + 3 ≤ length t.now }
    ensures { result ≡ bound_walk lim t.now b n c }
{
    match t[b] {
        0 => Some(c),
        1 | 2 => key_at(lim.key, lim.fill, t, b + 1, n, c),
        _ => None,
    }
}

#[tactic(auto, using(crate::proofs::Walks::thens), unfolding(crate::specs::Walk::bounds_walk))]
fn bounds_step(lim: Limits, t: &[u64], b: usize, n: usize, c: Fill) -> Option<Fill>
    requires { b + 7 ≤ length t.now }
    ensures { result ≡ bounds_walk lim t.now b n c }
{
    let d = bound_step(lim, t, b + 1, n, c)?;
    bound_step(lim, t, b + 4, n, d)
}

fn visible_step(lim: Limits, t: &[u64], b: usize, n: usize, c: Fill) -> Option<Fill>
    requires { b + 7 ≤ length t.now }
    ensures { result ≡ visible_walk lim t.now b n c }
{
    match t[b] {
        0 => Some(c),
        1 => bounds_step(lim, t, b, n, c),
        _ => None,
    }
}

#[tactic(auto, using(crate::proofs::Walks::thens), unfolding(crate::specs::Walk::view_walk))]
fn view_step(lim: Limits, t: &[u64], i: usize, n: usize, c: Fill) -> Option<Fill>
    requires { i < length t.now / 16 }
    ensures { result ≡ view_walk lim t.now n i c }
{
    let b = i * 16;
    let d = key_at(lim.key, lim.fill, t, b + 4, n, c)?;
    let e = last_step(lim, t, b + 6, n, d)?;
    visible_step(lim, t, b + 9, n, e)
}

#[tactic(auto, using(crate::proofs::Walks::rows), unfolding(crate::specs::Walk::views_walk))]
pub fn views_walk(lim: Limits, views: &[u64], n: usize, w: Window, c: Fill) -> Option<Fill>
    ensures { result ≡ views_walk lim views.now n w c }
{
    let more = Fill {
        segments: 0,
        views: w.count,
        runs: 0,
        borrows: 0,
        ids: 0,
        bytes: 0,
    };
    let mut d = window_step(lim.fill, views.len() / 16, w, more, c)?;
    for k in 0..w.count {
        d = view_step(lim, views, w.first + k, n, d)?;
    }
    Some(d)
}
