// MessagePack, read: first bytes, heads, skipping, well-formedness, values of one kind at a place.
// Every place counts from the start of the slice handed over.
#![tactic(auto)]

mod first_bytes;
mod values_read;
mod values_skipped;

pub use first_bytes::{form_of, head_at};
pub use values_read::{bin_at, flag_at, group_at, id_at, int_at, list_at, optional_at, uint_at};
pub use values_skipped::{rest_at, skip_many, skip_value, well_formed};

// What a first byte says of a value.
#[derive(Clone, Copy)]
pub enum Kind {
    Never,
    Nil,
    False,
    True,
    Uint,
    Minus,
    Sint,
    Bin,
    Str,
    Float,
    Ext,
    Array,
    Map,
}

// A kind, the width of the number after the first byte, and the number that the first byte gives by itself
// (of a signed number: the largest that its width holds).
#[derive(Clone, Copy)]
pub struct Form(pub Kind, pub usize, pub u64);

// What stands at a place, with the place after it last.
#[derive(Clone, Copy)]
pub enum Head {
    // the input ends inside: more bytes could mend it
    Cut,
    // c1: no bytes mend it
    Never,
    Nil(usize),
    Flag(bool, usize),
    Uint(u64, usize),
    // minus one minus the number
    Minus(u64, usize),
    // first place and length of its bytes
    Bin(usize, usize, usize),
    // float, str, ext
    Other(usize),
    // count of its elements; the place of the first
    Array(u64, usize),
    Map(u64, usize),
}

// How many levels of arrays and maps a value may have.
const DEEPEST: usize = 16;

const HALF: u64 = 0x8000_0000_0000_0000;
