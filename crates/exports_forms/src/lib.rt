// What goes in and out of an entry point: the numbers that stand for a room, a range, a projection's wishes or an id, and those that tell
// an answer. The crates of entry points share it.
#![tactic(auto)]

mod answers;
mod arguments;

pub use answers::{given, looked_answer, refused_answer, selected_answer, written_answer};
pub use arguments::{config_arg, global_odd, is_odd, range_arg, room_fill, uuid_arg};

// What a call answers: 0 and the operation's numbers, or a refusal's number and place; the rest 0. C gets numbers.
#[repr(C)]
#[derive(Clone, Copy)]
pub struct Answer {
    pub number: usize,
    pub first: usize,
    pub second: usize,
    pub third: usize,
}
