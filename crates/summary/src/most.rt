// What is read of the counts: that of a number, and the number that was sent most often.
ghost use Rattle.std.specs.Prelude.{◌≡◌};
ghost use Rattle.frame.specs.Result.{told_result};
ghost use Rattle.summary.specs.Most.{overtakes, most_to, count_for, count_of, most_of};

use crate::counts::count_at;
use crate::{Count, NOT_LENT, SIZE};
use frame::Refusal;

// Whether a later number is named in the place of the one named so far, by their counts.
#[tactic(auto, unfolding(crate::specs::Most::overtakes))]
fn overtakes(named: u16, later: u16) -> bool
    ensures { result ≡ overtakes named later }
{
    named < later
}

// The number that was sent most often, with its count. Each count is read once. By hand: of equals the first stands; the
// library's maximum gives the last, and over a reversed range an Option that is never None.
fn most(counts: &[u8; SIZE]) -> Count
    ensures { result ≡ count_for counts.now (most_to counts.now 255) }
{
    let count = count_at(0, counts);
    let mut most = Count { number: 0, count };
    for number in 1..=255 {
        let later = count_at(number, counts);
        if overtakes(most.count, later) {
            most = Count {
                number,
                count: later,
            };
        }
    }
    most
}

// The count of a number; refused 5 where the counts are not lent 512 bytes. (By `let .. else`: with `ok_or` and `?` it takes half
// as many instructions more.)
#[tactic(auto, unfolding(crate::specs::Most::count_of, crate::specs::Most::count_for, frame::specs::Choice::pick))]
pub fn count_of(number: u8, counts: &[u8]) -> Result<Count, Refusal>
    ensures { told_result result ≡ count_of number counts.now }
{
    let Some(counts) = counts.as_array() else {
        return Err(NOT_LENT);
    };
    let count = count_at(number, counts);
    Ok(Count { number, count })
}

// The number that was sent most often; refused 5 where the counts are not lent 512 bytes. (A line differs from the count of a
// number; each has its own promise.)
#[tactic(auto, unfolding(crate::specs::Most::most_of, frame::specs::Choice::pick))]
pub fn most_of(counts: &[u8]) -> Result<Count, Refusal>
    ensures { told_result result ≡ most_of counts.now }
{
    let counts = counts.as_array().ok_or(NOT_LENT)?;
    Ok(most(counts))
}
