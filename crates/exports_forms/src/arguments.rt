// The numbers that go into an entry point, as what they stand for.
ghost use Rattle.std.specs.Prelude.{◌≡◌};
ghost use Rattle.exports_forms.specs.Arguments.{room_fill, range_arg, odd_of, global_arg, filter_arg, config_arg, odd_global, uuid_arg};

use ids::Uuid;
use keys::Range;
use project_ranges::ProjectionConfig;
use records::{Fill, bound_at};
use tables::ix;

// The six numbers of a room: what a result may fill, in segments, views, runs, borrows, ids and bytes.
// inner
pub fn room_fill(r: &[u64; 6]) -> Fill
    ensures { result ≡ room_fill r.now }
{
    Fill {
        segments: ix(r[0]),
        views: ix(r[1]),
        runs: ix(r[2]),
        borrows: ix(r[3]),
        ids: ix(r[4]),
        bytes: ix(r[5]),
    }
}

// The three numbers of the start, then those of the end: a bound's kind, 0 unbounded, 1 included, 2 excluded, and where its key stands in
// the bytes lent with it.
// inner
pub fn range_arg(r: &[u64; 6]) -> Range
    ensures { result ≡ range_arg r.now }
{
    Range {
        start: bound_at(r, 0),
        end: bound_at(r, 3),
    }
}

// Whether a bound has a kind that stands for nothing.
// inner
pub fn is_odd(r: &[u64; 6]) -> bool
    ensures { result ≡ odd_of r.now }
{
    2 < r[0] || 2 < r[3]
}

// The global range, where there is one: C says so by a number.
fn global_arg(flag: u64, r: &[u64; 6]) -> Option<Range>
    ensures { result ≡ global_arg flag r.now }
{
    if flag == 0 {
        return None;
    }
    Some(range_arg(r))
}

// The filter, where there is one: C says so by a number.
fn filter_arg(flag: u64, keeps: u64, mask: u64) -> Option<(bool, u64)>
    ensures { result ≡ filter_arg flag keeps mask }
{
    if flag == 0 {
        return None;
    }
    Some((keeps != 0, mask))
}

// What a projection is asked for: whether there is a global range, whether there is a filter, its flag and its mask, and whether
// there is a table of own ranges.
// inner
pub fn config_arg(f: &[u64; 5], r: &[u64; 6]) -> ProjectionConfig
    ensures { result ≡ config_arg f.now r.now }
{
    let global_range = global_arg(f[0], r);
    let segment_filter = filter_arg(f[1], f[2], f[3]);
    ProjectionConfig {
        global_range,
        segment_filter,
        segment_projection: f[4] != 0,
    }
}

// Whether there is a global range with a kind that stands for nothing.
// inner
pub fn global_odd(f: &[u64; 5], r: &[u64; 6]) -> bool
    ensures { result ≡ odd_global f.now r.now }
{
    f[0] != 0 && is_odd(r)
}

// An id's two words, the high one first.
// inner
pub fn uuid_arg(c: &[u64; 2]) -> Uuid
    ensures { result ≡ uuid_arg c.now }
{
    Uuid(c[0], c[1])
}
