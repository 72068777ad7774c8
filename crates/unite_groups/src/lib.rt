// The borrows of a union: members entered one after the other into groups by path and id set, each group with its checkpoint. The groups
// stand in a lent table, six words a row, their id sets in a lent working list, two words an id.
#![tactic(auto)]

mod group_borrows_laid;
mod group_members;
mod group_rows;

pub use group_borrows_laid::{measure_groups, put_groups};
pub use group_members::{group_borrows, group_owned};
use ids::Uuid;
use records::Place;
use tables::{Window, held};

// How many groups there are, and how many ids of the working list their sets fill.
#[derive(Clone, Copy)]
pub struct Grouped {
    pub groups: usize,
    pub ids: usize,
}

// A group: 6 words a row.
#[derive(Clone, Copy)]
pub struct GroupRow {
    pub path: Place,
    pub checkpoint: Uuid,
    pub ids: Window,
}

// A place among rows that ascend: how many are before it, and whether the row there is the same.
#[derive(Clone, Copy)]
pub struct Spot {
    pub at: usize,
    pub held: bool,
}
