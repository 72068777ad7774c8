// Whether a new prefix nests with one that is held, and whether it is held itself.
ghost use Rattle.std.specs.Prelude.{◌≡◌, true, ◌+◌, ◌/◌, ◌<◌, length};
ghost use Rattle.keys.specs.Key.{less_of};
ghost use Rattle.keys.specs.Prefix.{begins_of};
ghost use Rattle.measure.specs.Tests.{chain};
ghost use Rattle.lawful.specs.Steps.{prefix_at};
ghost use Rattle.segments.specs.Prefixes.{prefixes_in};
ghost use Rattle.segments.specs.Place.{place_of, extended, begun};
ghost use Rattle.segments.specs.Insert.{holds_of};
ghost use Rattle.insert.specs.Nesting.{nesting_of};

use keys::begins;
use segments::{is_other, prefix_at};
use tables::{Window, held};

// Whether the prefix of row `i` begins with `prefix`.
fn extends(segments: &[u64], pool: &[u8], i: usize, prefix: &[u8]) -> bool
    requires { i < length segments.now / 12 }
    ensures { result ≡ begins_of prefix.now (prefix_at segments.now pool.now i) }
{
    begins(prefix, prefix_at(segments, pool, i))
}

// Whether `prefix` begins with the prefix of row `i`.
fn leads(segments: &[u64], pool: &[u8], i: usize, prefix: &[u8]) -> bool
    requires { i < length segments.now / 12 }
    ensures { result ≡ begins_of (prefix_at segments.now pool.now i) prefix.now }
{
    begins(prefix_at(segments, pool, i), prefix)
}

fn is_extended(segments: &[u64], pool: &[u8], w: Window, prefix: &[u8], place: usize) -> bool
    requires { place ≡ place_of (prefixes_in segments.now pool.now w) prefix.now }
    ensures { result ≡ extended (prefixes_in segments.now pool.now w) prefix.now }
{
    let n = held(w, segments.len() / 12);
    if place < n {
        return extends(segments, pool, w.first + place, prefix);
    }
    false
}

fn is_begun(segments: &[u64], pool: &[u8], w: Window, prefix: &[u8], place: usize) -> bool
    requires { place ≡ place_of (prefixes_in segments.now pool.now w) prefix.now }
    ensures { result ≡ begun (prefixes_in segments.now pool.now w) prefix.now }
{
    if 0 < place {
        return leads(segments, pool, w.first + (place - 1), prefix);
    }
    false
}

// What a prefix with this place nests with: the immediate successor if it extends the candidate, else the predecessor if it begins
// it. Prefixes that ascend have no other conflict.
pub fn check_segment_prefix_antichain(
    segments: &[u64],
    pool: &[u8],
    w: Window,
    prefix: &[u8],
    place: usize,
) -> Option<usize>
    requires { place ≡ place_of (prefixes_in segments.now pool.now w) prefix.now }
    ensures { result ≡ nesting_of (prefixes_in segments.now pool.now w) prefix.now }
{
    if is_extended(segments, pool, w, prefix, place) {
        return Some(place);
    }
    if is_begun(segments, pool, w, prefix, place) {
        return Some(place - 1);
    }
    None
}

// ---- held

// Whether a prefix with this place is held: it would stand right there.
pub fn is_held(segments: &[u64], pool: &[u8], w: Window, prefix: &[u8], place: usize) -> bool
    requires w_value { chain less_of (prefixes_in segments.now pool.now w) ≡ true }
    requires place_value { place ≡ place_of (prefixes_in segments.now pool.now w) prefix.now }
    ensures { result ≡ holds_of (prefixes_in segments.now pool.now w) prefix.now }
{
    let n = held(w, segments.len() / 12);
    if place < n {
        return !is_other(segments, pool, w.first + place, prefix);
    }
    false
}
