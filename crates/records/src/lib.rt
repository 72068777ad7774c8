// The records of a manifest as they stand in six lent tables: segments, views, runs, borrows and ids as words, a fixed
// number of words a row, and the pool as bytes. Every place counts from the start of the slice handed over.
#![tactic(auto)]

mod rows_read;
mod rows_words;

ghost use Rattle.std.specs.Prelude.{◌≡◌, [], ◌∷◌};
ghost use Rattle.records.specs.Refusals.{refusal};
ghost use Rattle.records.specs.Limits.{limits01};

use ids::{SstId, Uuid, ViewId};
use keys::Range;
pub use rows_read::{
    borrow_at, bound_at, id_at, place_at, run_at, segment_at, tree_at, view_at, window_at,
};
pub use rows_words::{borrow_words, bound_cell, id_words, run_words, segment_words, view_words};
use tables::Window;

// A byte string: so many bytes of the pool.
#[derive(Clone, Copy)]
pub struct Place {
    pub at: usize,
    pub len: usize,
}

// A view: 16 words a row.
#[derive(Clone, Copy)]
pub struct ViewRow {
    pub id: ViewId,
    pub sst: SstId,
    pub first: Place,
    // none: unknown
    pub last: Option<Place>,
    // none: all that its keys span
    pub visible: Option<Range>,
}

// A run: 3 words a row.
#[derive(Clone, Copy)]
pub struct RunRow {
    pub id: u64,
    pub views: Window,
}

// A tree: in a segment's row, or in the manifest's own value.
#[derive(Clone, Copy)]
pub struct TreeRow {
    // the view watermark
    pub view: Option<ViewId>,
    // the SST watermark
    pub sst: Option<SstId>,
    pub l0: Window,
    pub compacted: Window,
}

// A segment: 12 words a row.
#[derive(Clone, Copy)]
pub struct SegmentRow {
    pub prefix: Place,
    pub tree: TreeRow,
}

// A borrow: 9 words a row. An id is 2 words.
#[derive(Clone, Copy)]
pub struct BorrowRow {
    pub path: Place,
    pub source: Uuid,
    // the final checkpoint
    pub fin: Option<Uuid>,
    pub ids: Window,
}

// A manifest, with windows into the tables.
#[derive(Clone, Copy)]
pub struct ManifestRow {
    pub initialized: bool,
    pub tree: TreeRow,
    pub segments: Window,
    pub segment_extractor_name: Option<Place>,
    pub next_wal_sst_id: u64,
    pub replay_after_wal_id: u64,
    pub last_l0_clock_tick: i64,
    pub last_l0_seq: u64,
    pub recent_snapshot_min_seq: u64,
    pub external_dbs: Window,
    pub writer_epoch: u64,
    pub compactor_epoch: u64,
}

// The six lent tables that a manifest's windows point into.
#[derive(Clone, Copy)]
pub struct Tables<'a> {
    pub segments: &'a [u64],
    pub views: &'a [u64],
    pub runs: &'a [u64],
    pub borrows: &'a [u64],
    pub ids: &'a [u64],
    pub pool: &'a [u8],
}

// What some records fill: places in each table, and bytes of the pool.
#[derive(Clone, Copy)]
pub struct Fill {
    pub segments: usize,
    pub views: usize,
    pub runs: usize,
    pub borrows: usize,
    pub ids: usize,
    pub bytes: usize,
}

// The limits of L1 as one value: what a manifest may fill, and how long each kind of byte string may be.
#[derive(Clone, Copy)]
pub struct Limits {
    pub fill: Fill,
    pub prefix: usize,
    pub name: usize,
    pub key: usize,
    pub path: usize,
}

// Document 01's refusals, each with its place; those whose place is always 0 hold none.
#[derive(Clone, Copy)]
pub enum Refusal {
    Unlawful(usize),
    OverLimit,
    Nests(usize),
    NoRoom,
    EmptyRange,
    CompactorOnly(usize),
    KeptNest(usize),
    OwnEmpty(usize),
    OwnOutside(usize),
    MaskBit(usize),
    ExtractorsDiffer,
    Overlap(usize),
    SegmentsUnnamed,
    SourcesNest,
    NoFinal,
    TooFewFresh,
    NotWellFormed(usize),
    NotTheRecord(usize),
}

// A refusal as document 01 numbers it, for callers in C.
#[derive(Clone, Copy)]
pub struct Told {
    pub number: usize,
    pub place: usize,
}

// The number and the place of a refusal.
pub fn tell(x: Refusal) -> Told
    ensures { result.number ∷ result.place ∷ [] ≡ refusal x }
{
    match x {
        Refusal::Unlawful(i) => Told {
            number: 1,
            place: i,
        },
        Refusal::OverLimit => Told {
            number: 2,
            place: 0,
        },
        Refusal::Nests(i) => Told {
            number: 3,
            place: i,
        },
        Refusal::NoRoom => Told {
            number: 4,
            place: 0,
        },
        Refusal::EmptyRange => Told {
            number: 5,
            place: 0,
        },
        Refusal::CompactorOnly(i) => Told {
            number: 6,
            place: i,
        },
        Refusal::KeptNest(i) => Told {
            number: 7,
            place: i,
        },
        Refusal::OwnEmpty(i) => Told {
            number: 8,
            place: i,
        },
        Refusal::OwnOutside(i) => Told {
            number: 9,
            place: i,
        },
        Refusal::MaskBit(i) => Told {
            number: 10,
            place: i,
        },
        Refusal::ExtractorsDiffer => Told {
            number: 11,
            place: 0,
        },
        Refusal::Overlap(i) => Told {
            number: 12,
            place: i,
        },
        Refusal::SegmentsUnnamed => Told {
            number: 13,
            place: 0,
        },
        Refusal::SourcesNest => Told {
            number: 14,
            place: 0,
        },
        Refusal::NoFinal => Told {
            number: 15,
            place: 0,
        },
        Refusal::TooFewFresh => Told {
            number: 16,
            place: 0,
        },
        Refusal::NotWellFormed(i) => Told {
            number: 18,
            place: i,
        },
        Refusal::NotTheRecord(i) => Told {
            number: 19,
            place: i,
        },
    }
}

// Document 01's limits, each number once.
#[tactic(auto, unfolding(crate::specs::Limits::limits01))]
pub fn limits_01() -> Limits
    ensures { result ≡ limits01 }
{
    Limits {
        fill: Fill {
            segments: 64,
            views: 512,
            runs: 128,
            borrows: 32,
            ids: 512,
            bytes: 8192,
        },
        prefix: 32,
        name: 32,
        key: 64,
        path: 64,
    }
}

// A code and two numbers, as they stand in a row: the lent tables hold words, and a variant is a code there.
#[derive(Clone, Copy)]
pub struct Cell {
    pub code: u64,
    pub a: u64,
    pub b: u64,
}

// A visible range's code and its two bounds, as words.
#[derive(Clone, Copy)]
pub struct Cells {
    pub code: u64,
    pub start: Cell,
    pub end: Cell,
}
