// The words of a row.
ghost use Rattle.std.specs.Prelude.{◌≡◌};
ghost use Rattle.records.specs.Words.{bound_cell, last_cell, mark_cell, visible_cells, view_words, run_words, segment_words, borrow_words, id_words};

use crate::{BorrowRow, Cell, Cells, Place, RunRow, SegmentRow, ViewRow};
use ids::{Id, SstId};
use keys::{Bound, Range};

// What is not there.
const NOTHING: Cell = Cell {
    code: 0,
    a: 0,
    b: 0,
};

// The words of a bound.
// inner
pub fn bound_cell(x: Bound) -> Cell
    ensures { result ≡ bound_cell x }
{
    match x {
        Bound::Unbounded => NOTHING,
        Bound::Included(from, len) => Cell {
            code: 1,
            a: from as u64,
            b: len as u64,
        },
        Bound::Excluded(from, len) => Cell {
            code: 2,
            a: from as u64,
            b: len as u64,
        },
    }
}

fn last_cell(x: Option<Place>) -> Cell
    ensures { result ≡ last_cell x }
{
    match x {
        None => NOTHING,
        Some(p) => Cell {
            code: 1,
            a: p.at as u64,
            b: p.len as u64,
        },
    }
}

fn mark_cell<I: Id>(x: Option<I>) -> Cell
    ensures { result ≡ mark_cell I.halves x }
{
    match x {
        None => NOTHING,
        Some(i) => {
            let (a, b) = i.halves();
            Cell { code: 1, a, b }
        }
    }
}

fn visible_cells(x: Option<Range>) -> Cells
    ensures { result ≡ visible_cells x }
{
    match x {
        None => Cells {
            code: 0,
            start: NOTHING,
            end: NOTHING,
        },
        Some(r) => {
            Cells {
                code: 1,
                start: bound_cell(r.start),
                end: bound_cell(r.end),
            }
        }
    }
}

// inner
#[tactic(auto, unfolding(crate::specs::Words::view_words))]
pub fn view_words(v: ViewRow) -> [u64; 16]
    ensures { result ≡ view_words v }
{
    let last = last_cell(v.last);
    let seen = visible_cells(v.visible);
    [
        v.id.0,
        v.id.1,
        v.sst.0,
        v.sst.1,
        v.first.at as u64,
        v.first.len as u64,
        last.code,
        last.a,
        last.b,
        seen.code,
        seen.start.code,
        seen.start.a,
        seen.start.b,
        seen.end.code,
        seen.end.a,
        seen.end.b,
    ]
}

// inner
#[tactic(auto, unfolding(crate::specs::Words::run_words))]
pub fn run_words(r: RunRow) -> [u64; 3]
    ensures { result ≡ run_words r }
{
    [r.id, r.views.first as u64, r.views.count as u64]
}

// inner
#[tactic(auto, unfolding(crate::specs::Words::segment_words, crate::specs::Words::tree_words))]
pub fn segment_words(s: SegmentRow) -> [u64; 12]
    ensures { result ≡ segment_words s }
{
    let t = s.tree;
    let view = mark_cell(t.view);
    let sst = mark_cell(t.sst);
    [
        s.prefix.at as u64,
        s.prefix.len as u64,
        view.code,
        view.a,
        view.b,
        sst.code,
        sst.a,
        sst.b,
        t.l0.first as u64,
        t.l0.count as u64,
        t.compacted.first as u64,
        t.compacted.count as u64,
    ]
}

// inner
#[tactic(auto, unfolding(crate::specs::Words::borrow_words))]
pub fn borrow_words(b: BorrowRow) -> [u64; 9]
    ensures { result ≡ borrow_words b }
{
    let fin = mark_cell(b.fin);
    [
        b.path.at as u64,
        b.path.len as u64,
        b.source.0,
        b.source.1,
        fin.code,
        fin.a,
        fin.b,
        b.ids.first as u64,
        b.ids.count as u64,
    ]
}

// inner
#[tactic(auto, unfolding(crate::specs::Words::id_words))]
pub fn id_words(x: SstId) -> [u64; 2]
    ensures { result ≡ id_words x }
{
    [x.0, x.1]
}
