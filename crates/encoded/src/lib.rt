// Operations on encoded manifests: bytes in, an answer or encoded bytes out. The rows are read over the input itself, into working
// tables that the caller lends; what those hold afterwards is of no use. A refused call leaves the lent output as it was.
#![tactic(auto)]

mod bytes_asked;
mod bytes_inserted;
mod bytes_read;

ghost use Rattle.std.specs.Prelude.{◌≡◌};
ghost use Rattle.encoded.specs.Least.{lesser};

pub use bytes_asked::{lookup, select};
pub use bytes_inserted::{has_results, insert};
pub use bytes_read::{has_tables, read, rows_of};
use records::{ManifestRow, Refusal};

// What insert answers: the place of a prefix that was held, or the place at which it entered and how many bytes the manifest with
// it has. Both arms have a value of their own, and neither is an absence or a failure.
#[derive(Clone, Copy)]
pub enum InsertedTo {
    Found(usize),
    Entered(usize, usize),
}

// The lesser of two numbers: of a table's rows and the room asked for.
// inner
pub fn least(a: usize, b: usize) -> usize
    ensures { result ≡ lesser a b }
{
    a.min(b)
}
