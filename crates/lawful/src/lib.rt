// The lawful check: for any words, any bytes, any manifest value at all the first broken rule, or that all hold.
#![tactic(auto)]

mod prefix_laws;
mod run_laws;
mod view_laws;

ghost use Rattle.std.specs.Prelude.{◌≡◌, ◌-◌};
ghost use Rattle.records.specs.Decode.{lent_of};
ghost use Rattle.lawful.specs.Judge.{judged_of};

use measure::l1;
pub use prefix_laws::{l2, l3};
use records::{Limits, ManifestRow, Tables};
pub use run_laws::l5;
pub use view_laws::{l4, last_bound, seen_range};

// How many neighbours there are among `n` in a row.
fn gaps(n: usize) -> usize
    ensures { result ≡ n - 1 }
{
    if n == 0 {
        return 0;
    }
    n - 1
}

// The first rule that the manifest breaks. L1 comes first, so that all sums are known before any key is compared.
pub fn lawful(lim: Limits, tables: Tables, m: ManifestRow) -> Result<(), usize>
    ensures { result ≡ judged_of lim (lent_of tables.entry) m }
{
    if !l1(lim, tables, m) {
        return Err(1);
    }
    if !l2(tables, m) {
        return Err(2);
    }
    if !l3(tables, m) {
        return Err(3);
    }
    if !l4(tables, m) {
        return Err(4);
    }
    if !l5(tables, m) {
        return Err(5);
    }
    Ok(())
}
