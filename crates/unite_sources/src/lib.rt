// Which sources are used, in which order, and which trees are joined. The sources stand in a table of 22 words a row over one set of
// tables: at most eight, each with at most 64 segments and 512 views.
#![tactic(auto)]

mod prefix_lists;
mod tree_shares;

ghost use Rattle.std.specs.Prelude.{◌≡◌, true, ◌+◌, ◌-◌, ◌*◌, ◌≤◌, ◌<◌, length};
ghost use Rattle.tables.specs.Layout.{up_to};
ghost use Rattle.records.specs.Row.{at, place_at, window_at, optional};
ghost use Rattle.records.specs.Decode.{name_in};
ghost use Rattle.unite_ranges.specs.Bounding.{bounding_of};
ghost use Rattle.unite_ranges.specs.Arranged.{arranged, arranged_from};
ghost use Rattle.unite_ranges.specs.Rows.{bounded_in, ranged_in};
ghost use Rattle.unite_sources.specs.Source.{same_name, names_differ};
ghost use Rattle.unite_sources.specs.Used.{ranged_as, ranged_by};
ghost use Rattle.unite_sources.specs.Rows.{views_at_word, name_at_word, words_of};

use keys::{Range, compare, part};
pub use prefix_lists::{all_prefixes, prefixes_nest};
use records::{Place, TreeRow};
use tables::{Window, ix};
pub use tree_shares::shares_at;
use unite_ranges::{bounding_range, enter_range};

// ---- what a source's row says. A word that the table does not have reads as 0: nothing is asked of the word at which a row begins.

// Word `k` of the row that begins at word `b`.
// inner
pub fn word_at(t: &[u64], b: usize, k: usize) -> u64
    ensures { result ≡ at t.now (b + k) }
{
    if b < t.len() {
        if k < t.len() - b {
            return t[b + k];
        }
    }
    0
}

// The window in words `k` and `k + 1`.
// inner
pub fn window_in(t: &[u64], b: usize, k: usize) -> Window
    requires { k < 22 }
    ensures { result ≡ window_at t.now (b + k) }
{
    Window {
        first: ix(word_at(t, b, k)),
        count: ix(word_at(t, b, k + 1)),
    }
}

// The tree's two windows. Its watermarks are not asked for.
fn tree_at(t: &[u64], b: usize) -> TreeRow
    ensures { result ≡ record { view = None; sst = None; l0 = window_at t.now (b + 6); compacted = window_at t.now (b + 8) } }
{
    let l0 = window_in(t, b, 6);
    let compacted = window_in(t, b, 8);
    TreeRow {
        view: None,
        sst: None,
        l0,
        compacted,
    }
}

// The extractor's name.
fn name_at(t: &[u64], b: usize) -> Option<Place>
    ensures { result ≡ optional None Some (at t.now (b + 12)) (place_at t.now (b + 13)) }
{
    let p = Place {
        at: ix(word_at(t, b, 13)),
        len: ix(word_at(t, b, 14)),
    };
    match word_at(t, b, 12) {
        0 => None,
        _ => Some(p),
    }
}

// ---- the used sources, in order

// The bounding range of all views of the source that begins at word `b`: each view is looked at once.
fn source_bounds(
    sources: &[u64],
    b: usize,
    segments: &[u64],
    runs: &[u64],
    views: &[u64],
    pool: &[u8],
) -> Option<Range>
    ensures { bounded_in pool.now result ≡ bounding_of (views_at_word segments.now runs.now views.now pool.now sources.now b) }
{
    let t = tree_at(sources, b);
    let w = window_in(sources, b, 10);
    bounding_range(t, segments, w, runs, views, pool)
}

// Enters `what` with its range among the first `k` rows, if it has one. It answers how many there are then.
fn enter_bounded(rows: &mut [u64], k: usize, what: u64, q: Option<Range>, pool: &[u8]) -> usize
    requires { (k + 1) * 7 ≤ length rows.old }
    ensures result_after { ranged_in pool.now rows.new result ≡ arranged_from (ranged_in pool.now rows.old k) (ranged_as what (bounded_in pool.now q)) }
    ensures upper_bound { result ≤ k + 1 }
    ensures rows_len_unchanged { length rows.new ≡ length rows.old }
{
    match q {
        None => k,
        Some(r) => {
            enter_range(rows, k, what, r, pool);
            k + 1
        }
    }
}

// Enters the source that begins at word `b`, if it has views.
fn enter_source(
    sources: &[u64],
    b: usize,
    segments: &[u64],
    runs: &[u64],
    views: &[u64],
    pool: &[u8],
    order: &mut [u64],
    k: usize,
) -> usize
    requires { (k + 1) * 7 ≤ length order.old }
    ensures result_after { ranged_in pool.now order.new result ≡ arranged_from (ranged_in pool.now order.old k) (ranged_as b (bounding_of (views_at_word segments.now runs.now views.now pool.now sources.now b))) }
    ensures upper_bound { result ≤ k + 1 }
    ensures order_len_unchanged { length order.new ≡ length order.old }
{
    let q = source_bounds(sources, b, segments, runs, views, pool);
    enter_bounded(order, k, b as u64, q, pool)
}

// The used ones among the first `n` sources, arranged: of each the word at which its row begins, and its range. It answers how many.
// Each source's views are looked at once, and its start is compared with those of the sources before it.
// inner
pub fn arrange_sources(
    sources: &[u64],
    n: usize,
    segments: &[u64],
    runs: &[u64],
    views: &[u64],
    pool: &[u8],
    order: &mut [u64],
) -> usize
    requires n_in_bounds { n * 22 ≤ length sources.now }
    requires n_in_bounds_2 { n * 7 ≤ length order.old }
    ensures result_after { ranged_in pool.now order.new result ≡ arranged (ranged_by (views_at_word segments.now runs.now views.now pool.now sources.now) (words_of n)) }
    ensures upper_bound { result ≤ n }
    ensures order_len_unchanged { length order.new ≡ length order.old }
{
    let mut k = 0;
    for i in 0..n {
        k = enter_source(sources, i * 22, segments, runs, views, pool, order, k);
    }
    k
}

// ---- the names

// Whether two names are the same. An absent one is no empty one. Two places may hold the same bytes, so no `==` says it.
fn same_name(pool: &[u8], a: Option<Place>, b: Option<Place>) -> bool
    ensures { result ≡ same_name (name_in pool.now a) (name_in pool.now b) }
{
    match a {
        None => match b {
            None => true,
            Some(_) => false,
        },
        Some(p) => match b {
            None => false,
            Some(q) => compare(part(pool, p.at, p.len), part(pool, q.at, q.len)).is_eq(),
        },
    }
}

// Whether the name of the source that begins at word `b` is `first`.
fn is_named(sources: &[u64], b: usize, pool: &[u8], first: Option<Place>) -> bool
    ensures { result ≡ same_name (name_in pool.now first) (name_at_word pool.now sources.now b) }
{
    let name = name_at(sources, b);
    same_name(pool, first, name)
}

// Whether the extractor names of the first `n` sources differ: each is compared with the first one's.
// inner
pub fn names_differ(sources: &[u64], n: usize, pool: &[u8]) -> bool
    requires { n * 22 ≤ length sources.now }
    ensures { result ≡ names_differ (up_to (λ i. name_at_word pool.now sources.now (i * 22)) n) }
{
    let first = name_at(sources, 0);
    for i in 0..n {
        if !is_named(sources, i * 22, pool, first) {
            return true;
        }
    }
    false
}
