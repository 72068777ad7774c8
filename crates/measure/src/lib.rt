// L1 and the measure: one walk over the records adds up what a manifest fills, and leaves at the first record that lies
// outside, holds an unknown code or is too much. No sum is made before it is known to fit. A window's rows are counted before
// the first of them is walked, so that windows that overlap cannot make the walk long.
#![tactic(auto)]

mod borrows_walked;
mod trees_walked;
mod views_walked;

ghost use Rattle.std.specs.Prelude.{◌≡◌, true, ◌+◌, ◌<◌};
ghost use Rattle.records.specs.Decode.{lent_of};
ghost use Rattle.records.specs.Fill.{plus, fits};
ghost use Rattle.measure.specs.Measure.{l1_of, measured_of};
ghost use Rattle.measure.specs.Walk.{left_of, add_of};

use borrows_walked::{borrows_walk, name_step};
use records::{Fill, Limits, ManifestRow, Tables};
pub use trees_walked::segment_row;
use trees_walked::{segments_walk, tree_walk};

// Whether each number of `a` is at most the other's.
pub fn fits_in(a: Fill, most: Fill) -> bool
    ensures { result ≡ fits a most }
{
    if most.segments < a.segments {
        return false;
    }
    if most.views < a.views {
        return false;
    }
    if most.runs < a.runs {
        return false;
    }
    if most.borrows < a.borrows {
        return false;
    }
    if most.ids < a.ids {
        return false;
    }
    a.bytes <= most.bytes
}

// What is left of `most` beside `c`.
// inner
pub fn left_of(most: Fill, c: Fill) -> Fill
    requires { fits c most ≡ true }
    ensures { result ≡ left_of most c }
{
    Fill {
        segments: most.segments - c.segments,
        views: most.views - c.views,
        runs: most.runs - c.runs,
        borrows: most.borrows - c.borrows,
        ids: most.ids - c.ids,
        bytes: most.bytes - c.bytes,
    }
}

// `a` and `b` together, which are at most `most`.
fn sum_of(most: Fill, a: Fill, b: Fill) -> Fill
    requires { fits (plus a b) most ≡ true }
    ensures { result ≡ plus a b }
{
    Fill {
        segments: a.segments + b.segments,
        views: a.views + b.views,
        runs: a.runs + b.runs,
        borrows: a.borrows + b.borrows,
        ids: a.ids + b.ids,
        bytes: a.bytes + b.bytes,
    }
}

// `c` and `more` together, where they are at most `most`. No sum is made that could wrap.
// inner
pub fn add(most: Fill, c: Fill, more: Fill) -> Option<Fill>
    ensures { result ≡ add_of most c more }
{
    if !fits_in(c, most) {
        return None;
    }
    let left = left_of(most, c);
    if !fits_in(more, left) {
        return None;
    }
    Some(sum_of(most, c, more))
}

// ---- a manifest

// What the manifest fills, where it keeps L1.
#[tactic(auto, using(crate::proofs::Walks::thens, crate::proofs::Whole::measured_by), unfolding(crate::specs::Walk::manifest_walk))]
pub fn measure(lim: Limits, tables: Tables, m: ManifestRow) -> Option<Fill>
    ensures { result ≡ measured_of lim (lent_of tables.entry) m }
{
    let n = tables.pool.len();
    let none = Fill {
        segments: 0,
        views: 0,
        runs: 0,
        borrows: 0,
        ids: 0,
        bytes: 0,
    };
    let c = tree_walk(lim, tables.views, tables.runs, n, m.tree, none)?;
    let d = segments_walk(
        lim,
        tables.views,
        tables.runs,
        tables.segments,
        n,
        m.segments,
        c,
    )?;
    let e = name_step(lim, n, m.segment_extractor_name, d)?;
    borrows_walk(lim, tables.ids, tables.borrows, n, m.external_dbs, e)
}

// Whether the manifest keeps L1.
#[tactic(auto, using(crate::proofs::Whole::l1s))]
pub fn l1(lim: Limits, tables: Tables, m: ManifestRow) -> bool
    ensures { result ≡ l1_of lim (lent_of tables.entry) m }
{
    measure(lim, tables, m).is_some()
}
