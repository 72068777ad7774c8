// What insert and projection answer, as numbers.
ghost use Rattle.std.specs.Prelude.{◌≡◌};
ghost use Rattle.encoded.specs.Insert.{inserted};
ghost use Rattle.encoded_project.specs.Project.{projected};
ghost use Rattle.exports_forms.specs.Replies.{told};

use encoded::InsertedTo;
use exports_forms::{Answer, given, refused_answer};
use records::Refusal;

pub fn inserted_answer(x: Result<InsertedTo, Refusal>) -> Answer
    ensures { result ≡ told (inserted x) }
{
    match x {
        Ok(InsertedTo::Found(i)) => given(0, i, 0),
        Ok(InsertedTo::Entered(i, n)) => given(1, i, n),
        Err(r) => refused_answer(r),
    }
}

pub fn projected_answer(x: Result<(usize, usize), Refusal>) -> Answer
    ensures { result ≡ told (projected x) }
{
    match x {
        Ok((names, n)) => given(names, n, 0),
        Err(r) => refused_answer(r),
    }
}
