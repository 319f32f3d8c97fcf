// An answer that is a value or a refusal, in C's layout.
ghost use Rattle.std.specs.Prelude.{◌≡◌, MatchResult};
ghost use Rattle.frame.specs.Result.{told_result, refusal_of};

use frame::Refusal;

// The refusal's number, 0 where there is none, and the value in C's layout, zeros where refused. Each
// of C's structs has a name of its own for the value, so each is put together where it stands.
pub fn refusal_and_value<A, F: From<A> + Default>(answer: Result<A, Refusal>) -> (u8, F)
    ensures number { result.0 ≡ refusal_of (told_result answer) }
    ensures value { MatchResult answer (λ value. F.from_gives value result.1) (λ _. F.is_default result.1) }
{
    match answer {
        Ok(value) => (0, F::from(value)),
        Err(refusal) => (u8::from(refusal), F::default()),
    }
}
