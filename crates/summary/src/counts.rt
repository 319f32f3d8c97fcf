// The counts in their 512 bytes, which C lends.
ghost use Rattle.std.specs.Prelude.{◌≡◌};
ghost use Rattle.summary.specs.Counts.{count_at, adding, counting};

use crate::SIZE;
use frame::Frame;
use frame::count::{increment, word};

// The count of a number.
#[tactic(auto, unfolding(crate::specs::Counts::count_at))]
pub(crate) fn count_at(number: u8, counts: &[u8; SIZE]) -> u16
    ensures { result ≡ count_at counts.now number }
{
    let at = 2 * usize::from(number);
    word(counts[at], counts[at + 1])
}

// One information frame more with this number.
#[tactic(auto, unfolding(crate::specs::Counts::adding, crate::specs::Counts::with_count))]
fn add(number: u8, counts: &mut [u8; SIZE])
    ensures { counts.new ≡ adding counts.old number }
{
    let [low, high] = increment(count_at(number, counts)).to_le_bytes();
    let place = 2 * usize::from(number);
    counts[place] = low;
    counts[place + 1] = high;
}

// A frame that goes out: an information frame is counted, no other is. The kind is a number, as in `Frame`.
#[tactic(auto, unfolding(crate::specs::Counts::counting, frame::specs::Choice::pick))]
pub(crate) fn count(f: Frame, counts: &mut [u8; SIZE])
    ensures { counts.new ≡ counting counts.old f }
{
    if f.kind == 1 {
        add(f.bytes[0], counts);
    }
}
