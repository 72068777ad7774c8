// Views, runs and trees projected to a range: what is left of them is measured, and laid out by the emitter.
#![tactic(auto)]

mod view_ranges;
mod views_ids;
mod views_laid;
mod views_measured;

use keys::Bound;
use records::ViewRow;
pub use view_ranges::{holds_none, meet_reach};
pub use views_ids::ids_shown;
pub use views_laid::project_tree_in_place;
pub use views_measured::{add_view, measure_tree_shown};

// Where a range ends: at a bound, or at the successor of the prefix at this place.
#[derive(Clone, Copy)]
pub enum Until {
    Unbounded,
    Included(usize, usize),
    Excluded(usize, usize),
    Successor(usize, usize),
}

// The range that a tree is projected to.
#[derive(Clone, Copy)]
pub struct Reach {
    pub start: Bound,
    pub end: Until,
}

// An end as bytes of the pool; where it is a successor, one is to be added to the last of them.
#[derive(Clone, Copy)]
pub struct Flat {
    pub end: Bound,
    pub grown: bool,
}
