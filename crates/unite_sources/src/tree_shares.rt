// The trees that the used sources hold at a prefix.
ghost use Rattle.std.specs.Prelude.{◌≡◌, [], ◌+◌, ◌*◌, ◌/◌, ◌≤◌, ◌<◌, length};
ghost use Rattle.records.specs.Row.{at, tree_at};
ghost use Rattle.records.specs.Decode.{bytes_in, tree_in, segments_in};
ghost use Rattle.measure.specs.Within.{tree_views};
ghost use Rattle.merge.specs.Merge.{tree_of};
ghost use Rattle.unite_ranges.specs.Bounding.{bounding_of};
ghost use Rattle.unite_ranges.specs.Arranged.{arranged, arranged_from};
ghost use Rattle.unite_ranges.specs.Rows.{ranged_in};
ghost use Rattle.unite_sources.specs.Used.{ranged_as, ranged_by};
ghost use Rattle.unite_sources.specs.Rows.{begins as beginsAt, trees_at_in, ranged_trees};

use crate::enter_bounded;
use crate::prefix_lists::segments_of;
use keys::part;
use records::{Place, segment_at};
use segments::index_of;
use tables::{Window, held};
use unite_ranges::bounding_tree;

// Enters the tree of segment `i` of a table, if it has views: the word at which it begins, and its range.
fn enter_tree(
    segments: &[u64],
    i: usize,
    runs: &[u64],
    views: &[u64],
    pool: &[u8],
    shares: &mut [u64],
    k: usize,
) -> usize
    requires i_in_bounds { i < length segments.now / 12 }
    requires k_in_bounds { (k + 1) * 7 ≤ length shares.old }
    ensures result_after { ranged_in pool.now shares.new result ≡ arranged_from (ranged_in pool.now shares.old k) (ranged_as (i * 12 + 2) (bounding_of (tree_views (tree_in runs.now views.now pool.now (tree_at segments.now (i * 12 + 2)))))) }
    ensures upper_bound { result ≤ k + 1 }
    ensures shares_len_unchanged { length shares.new ≡ length shares.old }
{
    let s = segment_at(segments, i);
    let t = s.tree;
    let q = bounding_tree(t, runs, views, pool, None);
    enter_bounded(shares, k, (i * 12 + 2) as u64, q, pool)
}

// Enters the tree that the segments of a window have at a prefix, if they have one and it has views.
fn enter_share(
    w: Window,
    prefix: Place,
    segments: &[u64],
    runs: &[u64],
    views: &[u64],
    pool: &[u8],
    shares: &mut [u64],
    k: usize,
) -> usize
    requires { (k + 1) * 7 ≤ length shares.old }
    ensures result_after { ranged_trees (record { segments = segments.now; views = views.now; runs = runs.now; borrows = []; ids = []; pool = pool.now }) (ranged_in pool.now shares.new result) ≡ arranged_from (ranged_trees (record { segments = segments.now; views = views.now; runs = runs.now; borrows = []; ids = []; pool = pool.now }) (ranged_in pool.now shares.old k)) (ranged_as (tree_of (segments_in segments.now runs.now views.now pool.now w) (bytes_in pool.now prefix)) (bounding_of (tree_views (tree_of (segments_in segments.now runs.now views.now pool.now w) (bytes_in pool.now prefix))))) }
    ensures upper_bound { result ≤ k + 1 }
    ensures shares_len_unchanged { length shares.new ≡ length shares.old }
{
    let n = held(w, segments.len() / 12);
    let j = index_of(segments, pool, w, part(pool, prefix.at, prefix.len));
    if j < n {
        return enter_tree(segments, w.first + j, runs, views, pool, shares, k);
    }
    k
}

// The trees at a prefix that have views, arranged: of each the word of the segment table at which it begins, and its range. It answers
// how many. Of each used source at most 64 prefixes are compared, and the views of one tree are looked at.
// inner
pub fn shares_at(
    sources: &[u64],
    order: &[u64],
    n: usize,
    prefix: Place,
    segments: &[u64],
    runs: &[u64],
    views: &[u64],
    pool: &[u8],
    shares: &mut [u64],
) -> usize
    requires n_in_bounds { n * 7 ≤ length order.now }
    requires n_in_bounds_2 { n * 7 ≤ length shares.old }
    ensures result_after { ranged_trees (record { segments = segments.now; views = views.now; runs = runs.now; borrows = []; ids = []; pool = pool.now }) (ranged_in pool.now shares.new result) ≡ arranged (ranged_by tree_views (trees_at_in (record { segments = segments.now; views = views.now; runs = runs.now; borrows = []; ids = []; pool = pool.now }) sources.now (bytes_in pool.now prefix) (beginsAt order.now n))) }
    ensures upper_bound { result ≤ n }
    ensures shares_len_unchanged { length shares.new ≡ length shares.old }
{
    let mut k = 0;
    for i in 0..n {
        let w = segments_of(sources, order, i);
        k = enter_share(w, prefix, segments, runs, views, pool, shares, k);
    }
    k
}
