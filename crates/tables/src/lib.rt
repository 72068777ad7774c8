// Lent tables: windows of rows, and words and bytes put in their places.
#![tactic(auto)]

ghost use Rattle.std.specs.Prelude.{◌≡◌, ◌+◌, ◌≤◌, length};
ghost use Rattle.tables.specs.Layout.{write};
ghost use Rattle.tables.specs.Window.{lies_in, held_of};

// Some rows of a table that follow each other.
#[derive(Clone, Copy)]
pub struct Window {
    pub first: usize,
    pub count: usize,
}

// A word as an index.
pub fn ix(x: u64) -> usize
    ensures { result ≡ x }
{
    x as usize
}

// Whether all rows of the window are among the table's `rows`.
pub fn lies_in(w: Window, rows: usize) -> bool
    ensures { result ≡ lies_in w rows }
{
    w.first <= rows && w.count <= rows - w.first
}

// How many rows the window holds; none where it points outside.
#[tactic(auto, using(crate::proofs::Windows::windows))]
pub fn held(w: Window, rows: usize) -> usize
    ensures { result ≡ held_of w rows }
{
    if lies_in(w, rows) {
        return w.count;
    }
    0
}

// Puts `src` into `out` from `at` on, and gives the next place.
// inner
pub fn put<T: Copy>(src: &[T], out: &mut [T], at: usize) -> usize
    requires { at + length src.now ≤ length out.old }
    ensures value { result ≡ at + length src.now }
    ensures out_after { out.new ≡ write out.old at src.now }
{
    // No `copy_from_slice`: LLVM makes a call of memmove of it, and the archives for C are to need none.
    for k in 0..src.len() {
        out[at + k] = src[k];
    }
    at + src.len()
}
