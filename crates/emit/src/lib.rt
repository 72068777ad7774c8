// The emitter: one view, run, tree, segment, borrow or id at a time is appended to lent output tables, from any source
// tables. A cursor, `c`, is what was laid before; a writer gives the cursor past what it laid.
#![tactic(auto)]

mod borrows_put;
mod runs_put;
mod segments_put;
mod views_put;

pub use borrows_put::{put_borrow, put_borrow_row, put_borrows, put_id, put_ids, put_name};
use keys::{Bound, Range};
use records::{Fill, Place, TreeRow, ViewRow};
pub use runs_put::{put_run, put_run_row, put_runs, put_tree, tree_row};
pub use segments_put::{put_prefix, put_segment, put_segment_row, put_segments};
pub use views_put::{put_view, put_views};

#[derive(Clone, Copy)]
pub struct LaidLast {
    pub last: Option<Place>,
    pub past: usize,
}

#[derive(Clone, Copy)]
pub struct LaidBound {
    pub bound: Bound,
    pub past: usize,
}

#[derive(Clone, Copy)]
pub struct LaidVisible {
    pub visible: Option<Range>,
    pub past: usize,
}

#[derive(Clone, Copy)]
pub struct LaidView {
    pub view: ViewRow,
    pub past: usize,
}

#[derive(Clone, Copy)]
pub struct LaidTree {
    pub tree: TreeRow,
    pub past: Fill,
}

#[derive(Clone, Copy)]
pub struct LaidName {
    pub name: Option<Place>,
    pub past: Fill,
}
