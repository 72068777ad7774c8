// L2 and L3: each prefix and the next.
ghost use Rattle.std.specs.Prelude.{◌≡◌, not, ◌&&◌, ◌+◌, ◌-◌, ◌/◌, ◌<◌, length};
ghost use Rattle.keys.specs.Key.{less_of};
ghost use Rattle.keys.specs.Prefix.{begins_of};
ghost use Rattle.tables.specs.Window.{held_of};
ghost use Rattle.records.specs.Decode.{manifest_in, lent_of};
ghost use Rattle.measure.specs.Tests.{all_below};
ghost use Rattle.lawful.specs.Law.{l2_of, l3_of};
ghost use Rattle.lawful.specs.Steps.{prefix_at};

use crate::gaps;
use keys::{begins, is_less, part};
use records::{ManifestRow, Tables, segment_at};
use tables::{Window, held};

// Whether the prefix of row `i` is below that of row `j`.
fn is_step(segments: &[u64], pool: &[u8], i: usize, j: usize) -> bool
    requires { (i < length segments.now / 12) × (j < length segments.now / 12) }
    ensures { result ≡ less_of (prefix_at segments.now pool.now i) (prefix_at segments.now pool.now j) }
{
    let s = segment_at(segments, i);
    let t = segment_at(segments, j);
    let p = s.prefix;
    let q = t.prefix;
    is_less(part(pool, p.at, p.len), part(pool, q.at, q.len))
}

// Whether the prefix of row `i` does not begin that of row `j`.
fn is_apart(segments: &[u64], pool: &[u8], i: usize, j: usize) -> bool
    requires { (i < length segments.now / 12) × (j < length segments.now / 12) }
    ensures { result ≡ not (begins_of (prefix_at segments.now pool.now i) (prefix_at segments.now pool.now j)) }
{
    let s = segment_at(segments, i);
    let t = segment_at(segments, j);
    let p = s.prefix;
    let q = t.prefix;
    !begins(part(pool, p.at, p.len), part(pool, q.at, q.len))
}

// Whether each prefix of the window is below the next.
fn ascends(segments: &[u64], pool: &[u8], w: Window) -> bool
    ensures { result ≡ all_below (λ k. less_of (prefix_at segments.now pool.now (w.first + k)) (prefix_at segments.now pool.now (w.first + (k + 1)))) (held_of w (length segments.now / 12) - 1) }
{
    let n = gaps(held(w, segments.len() / 12));
    (0..n).all(|k| is_step(segments, pool, w.first + k, w.first + (k + 1)))
}

// Whether no prefix of the window begins the next.
fn parts(segments: &[u64], pool: &[u8], w: Window) -> bool
    ensures { result ≡ all_below (λ k. not (begins_of (prefix_at segments.now pool.now (w.first + k)) (prefix_at segments.now pool.now (w.first + (k + 1))))) (held_of w (length segments.now / 12) - 1) }
{
    let n = gaps(held(w, segments.len() / 12));
    (0..n).all(|k| is_apart(segments, pool, w.first + k, w.first + (k + 1)))
}

// L2: each prefix is below the next.
pub fn l2(tables: Tables, m: ManifestRow) -> bool
    ensures { result ≡ l2_of (manifest_in (lent_of tables.entry) m) }
{
    ascends(tables.segments, tables.pool, m.segments)
}

// Whether the prefixes of the window ascend and none begins another: where they ascend, what begins with one follows it at once, so that
// each need be held against the next alone.
fn stand_apart(segments: &[u64], pool: &[u8], w: Window) -> bool
    ensures { result ≡ (all_below (λ k. less_of (prefix_at segments.now pool.now (w.first + k)) (prefix_at segments.now pool.now (w.first + (k + 1)))) (held_of w (length segments.now / 12) - 1) && all_below (λ j. all_below (λ i. not (begins_of (prefix_at segments.now pool.now (w.first + i)) (prefix_at segments.now pool.now (w.first + j))) && not (begins_of (prefix_at segments.now pool.now (w.first + j)) (prefix_at segments.now pool.now (w.first + i)))) j) (held_of w (length segments.now / 12))) }
{
    if ascends(segments, pool, w) {
        return parts(segments, pool, w);
    }
    false
}

// L2 and L3: L2 is in the answer, since each prefix is held against the next alone.
pub fn l3(tables: Tables, m: ManifestRow) -> bool
    ensures { result ≡ (l2_of (manifest_in (lent_of tables.entry) m) && l3_of (manifest_in (lent_of tables.entry) m)) }
{
    stand_apart(tables.segments, tables.pool, m.segments)
}
