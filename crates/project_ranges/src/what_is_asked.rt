// What is asked for, and the filter.
ghost use Rattle.std.specs.Prelude.{◌≡◌, ◌-◌, ◌^◌, ◌<◌, leb};
ghost use Rattle.std.specs.Int.Count.{ones, count_leading_zeros};
ghost use Rattle.project_ranges.specs.Config.{is_noop, bit_of, passes as passesOf, names_count, refuses10, place10};
ghost use Rattle.project_ranges.specs.Args.{asked_in, config_in, global_empty};

use crate::ProjectionConfig;
use keys::is_empty;

// Whether nothing is asked for.
// inner
pub fn is_noop(c: ProjectionConfig, pool: &[u8], own: &[u64]) -> bool
    ensures { result ≡ is_noop (config_in pool.now c own.now) }
{
    let g = c.global_range;
    let f = c.segment_filter;
    match g {
        None => match f {
            None => !c.segment_projection,
            Some((_, _)) => false,
        },
        Some(_) => false,
    }
}

// Whether the global range holds no key.
// inner
pub fn global_empty(pool: &[u8], c: ProjectionConfig) -> bool
    ensures { result ≡ global_empty (asked_in pool.now c.global_range) }
{
    let g = c.global_range;
    match g {
        None => false,
        Some(r) => is_empty(pool, r),
    }
}

// ---- the filter

// Bit `i` of the mask; the mask has 64.
fn bit_of(mask: u64, i: usize) -> bool
    ensures { result ≡ bit_of mask i }
{
    if 63 < i {
        return false;
    }
    (mask >> i) % 2 == 1
}

// Whether the filter keeps the tree at a place.
pub fn passes(f: Option<(bool, u64)>, place: usize) -> bool
    ensures { result ≡ passesOf f place }
{
    match f {
        None => true,
        Some((flag, mask)) => {
            if place == 0 {
                return flag;
            }
            bit_of(mask, place - 1)
        }
    }
}

fn mask_reaches(n: usize, mask: u64) -> bool
    ensures { result ≡ leb (2 ^ n) mask }
{
    if 63 < n {
        return false;
    }
    1 <= (mask >> n)
}

// Whether the mask has a bit at or above the number of segments.
// inner
pub fn mask_over(n: usize, f: Option<(bool, u64)>) -> bool
    ensures { result ≡ refuses10 n f }
{
    match f {
        None => false,
        Some((_, mask)) => mask_reaches(n, mask),
    }
}

fn highest_of(mask: u64) -> usize
    ensures { result ≡ 63 - count_leading_zeros 64 mask }
{
    let above = u64::leading_zeros(mask);
    if 63 < above {
        return 0;
    }
    (63 - above) as usize
}

// The highest bit of the mask.
// inner
pub fn highest_bit(f: Option<(bool, u64)>) -> usize
    ensures { result ≡ place10 f }
{
    match f {
        None => 0,
        Some((_, mask)) => highest_of(mask),
    }
}

fn ones_of(mask: u64) -> usize
    ensures { result ≡ ones mask }
{
    u64::count_ones(mask) as usize
}

// How many segments the mask names.
// inner
pub fn names_count(f: Option<(bool, u64)>) -> usize
    ensures { result ≡ names_count f }
{
    match f {
        None => 0,
        Some((_, mask)) => ones_of(mask),
    }
}
