// The parts of the projection of an encoded manifest, bytes in, the encoded result out; exports puts them together. The bytes of the
// arguments and behind them the manifest stand in one set of working tables; those that the manifest was read into then hold the result.
// A refused call leaves the lent output as it was.
#![tactic(auto)]

mod behind_arguments;
mod result_bytes;

ghost use Rattle.std.specs.Prelude.{◌≡◌, ◌||◌, ◌/◌, ltb};
ghost use Rattle.project_ranges.specs.Args.{global_over};

pub use behind_arguments::read_behind;
use keys::Range;
use manifest_read::LONGEST;
use records::{Limits, Refusal};
pub use result_bytes::project_within;
use segments::range_over;

// Whether the input of `long` bytes or a bound of the global range is over its limit, or a bound points outside `n` bytes.
// inner
pub fn call_over(most: usize, long: usize, n: usize, g: Option<Range>) -> bool
    ensures { result ≡ (ltb 0x1_0000 long || global_over most n g) }
{
    if LONGEST < long {
        return true;
    }
    match g {
        None => false,
        Some(r) => range_over(most, n, r),
    }
}

// Whether a list of `used` words or a pool of so many bytes is too short for some manifest within L1.
// inner
pub fn lacks_list(lim: Limits, used: usize, pool: usize) -> bool
    ensures { result ≡ (ltb (used / 2) lim.fill.views || ltb pool lim.fill.bytes) }
{
    used / 2 < lim.fill.views || pool < lim.fill.bytes
}
