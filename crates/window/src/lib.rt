// The selected segments as a view of the caller's own segment table. The functions over the struct that holds the slice are few and thin:
// the work is done by functions on the slice and the numbers.
#![tactic(auto)]

ghost use Rattle.std.specs.Prelude.{◌≡◌, length};
ghost use Rattle.window.specs.Rows.{part_in, shown, read_of, first_in, past_in, view_of, selected_in};

use records::{Refusal, SegmentRow, segment_at};
use segments::Selected;
use tables::{Window, held};

// Rows first..past of a table of segments.
#[derive(Clone, Copy)]
pub struct SegmentWindow<'a> {
    pub table: &'a [u64],
    pub first: usize,
    pub past: usize,
}

// ---- on the slice and the numbers

// The part of the table that holds the rows of `w`; none where it points outside.
pub fn part_of_table(segments: &[u64], w: Window) -> &[u64]
    ensures { result.now ≡ part_in segments.now w }
{
    let n = held(w, segments.len() / 12);
    if n == 0 {
        return &segments[0..0];
    }
    let from = w.first * 12;
    let end = from + n * 12;
    &segments[from..end]
}

// How many rows of the table lie in first..past.
pub fn rows_in(table: &[u64], first: usize, past: usize) -> usize
    ensures { result ≡ length (shown table.now first past) }
{
    let end = past.min(table.len() / 12);
    if first < end {
        return end - first;
    }
    0
}

// Row `i` of those.
pub fn row_in(table: &[u64], first: usize, past: usize, i: usize) -> Option<SegmentRow>
    ensures { result ≡ read_of (shown table.now first past) i }
{
    if i < rows_in(table, first, past) {
        let s = segment_at(table, first + i);
        return Some(s);
    }
    None
}

// The first index of what a selection names, and the past-last one.
fn first_in(s: Result<Selected, Refusal>) -> usize
    ensures { result ≡ first_in s }
{
    match s {
        Ok(Selected::Unsegmented) => 0,
        Ok(Selected::Window(first, _)) => first,
        Err(_) => 0,
    }
}

fn past_in(s: Result<Selected, Refusal>) -> usize
    ensures { result ≡ past_in s }
{
    match s {
        Ok(Selected::Unsegmented) => 0,
        Ok(Selected::Window(_, past)) => past,
        Err(_) => 0,
    }
}

// ---- the struct is made, and taken apart

// The view of rows first..past of `table`.
pub fn window_of<'a>(table: &'a [u64], first: usize, past: usize) -> SegmentWindow<'a>
    ensures { result ≡ record { table = table.entry; first = first; past = past } }
{
    SegmentWindow { table, first, past }
}

// How many rows the window shows.
pub fn count<'a>(w: SegmentWindow<'a>) -> usize
    ensures { result ≡ length (shown w.entry.table.now w.entry.first w.entry.past) }
{
    rows_in(w.table, w.first, w.past)
}

// Row `i` of the window.
pub fn row_at<'a>(w: SegmentWindow<'a>, i: usize) -> Option<SegmentRow>
    ensures { result ≡ read_of (shown w.entry.table.now w.entry.first w.entry.past) i }
{
    row_in(w.table, w.first, w.past, i)
}

// What `select_segments` answered for the manifest whose segments are `w`, as a view of the caller's table.
pub fn selected_window<'a>(
    segments: &'a [u64],
    w: Window,
    s: Result<Selected, Refusal>,
) -> SegmentWindow<'a>
    ensures { view_of result ≡ selected_in segments.now w s }
{
    window_of(part_of_table(segments, w), first_in(s), past_in(s))
}

// Row `i` of what a selection names: plain parameters, and the view in a local.
pub fn selected_row(
    segments: &[u64],
    w: Window,
    s: Result<Selected, Refusal>,
    i: usize,
) -> Option<SegmentRow>
    ensures { result ≡ read_of (shown (part_in segments.now w) (first_in s) (past_in s)) i }
{
    row_at(selected_window(segments, w, s), i)
}
