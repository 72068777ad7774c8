// What an entry point answers, as numbers.
ghost use Rattle.std.specs.Prelude.{◌≡◌};
ghost use Rattle.records.specs.Refusals.{refusal};
ghost use Rattle.segments.specs.Lookup.{looked};
ghost use Rattle.segments.specs.Select.{selected};
ghost use Rattle.borrows.specs.Answer.{owned_says};
ghost use Rattle.manifest_write.specs.Answer.{written};
ghost use Rattle.exports_forms.specs.Replies.{told};

use crate::Answer;
use records::{Refusal, tell};
use segments::{Looked, Selected};

// The numbers of an operation that was not refused.
// inner
pub fn given(first: usize, second: usize, third: usize) -> Answer
    ensures { result ≡ record { number = 0; first = first; second = second; third = third } }
{
    Answer {
        number: 0,
        first,
        second,
        third,
    }
}

// inner
pub fn refused_answer(x: Refusal) -> Answer
    ensures { result ≡ told (refusal x) }
{
    let t = tell(x);
    Answer {
        number: t.number,
        first: t.place,
        second: 0,
        third: 0,
    }
}

// How much a call wrote, in bytes or in ids.
// inner
pub fn written_answer(x: Result<usize, Refusal>) -> Answer
    ensures wrote { result ≡ told (written x) }
    ensures owned { result ≡ told (owned_says x) }
{
    match x {
        Ok(n) => given(n, 0, 0),
        Err(r) => refused_answer(r),
    }
}

// inner
pub fn looked_answer(x: Result<Looked, Refusal>) -> Answer
    ensures { result ≡ told (looked x) }
{
    match x {
        Ok(Looked::Unsegmented) => given(0, 0, 0),
        Ok(Looked::Segment(i)) => given(1, i, 0),
        Ok(Looked::Absent) => given(2, 0, 0),
        Err(r) => refused_answer(r),
    }
}

// inner
pub fn selected_answer(x: Result<Selected, Refusal>) -> Answer
    ensures { result ≡ told (selected x) }
{
    match x {
        Ok(Selected::Unsegmented) => given(0, 0, 0),
        Ok(Selected::Window(first, past)) => given(1, first, past),
        Err(r) => refused_answer(r),
    }
}
