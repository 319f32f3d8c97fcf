// The sender's calls, which also keep the counts. Each is refused 5 where the counts are not lent 512 bytes, before all else;
// a refused call changes none of them. Message and counts are two slices that C lends.
ghost use Rattle.std.specs.Prelude.{◌≡◌};
ghost use Rattle.sender.specs.Call.{begin, tick, hear, post};
ghost use Rattle.sender.specs.Told.{is_refused, told_outcome, told};
ghost use Rattle.summary.specs.Calls.{kept, keeping, kept_of};

use crate::counts::count;
use crate::{NOT_LENT, SIZE};
use frame::Frame;
use sender::{Answer, Outcome, Sender};

fn is_refused(outcome: Outcome) -> bool
    ensures { result ≡ is_refused (told_outcome outcome) }
{
    matches!(outcome, Outcome::Refused(_))
}

// A call's answer, with its frame counted.
#[tactic(auto, unfolding(crate::specs::Counts::counting, frame::specs::Frames::blank_of, frame::specs::Choice::pick))]
fn counted(answer: Answer, counts: &mut [u8; SIZE]) -> Answer
    ensures { kept (told result) counts.new ≡ keeping (told answer) counts.old }
{
    if let Some(frame) = answer.frame {
        count(frame, counts);
    }
    answer
}

// Begins a transfer. An accepted begin clears the counts, and then its frame is counted. (The test of the counts stands in each
// call: a function over a closure would promise by what the closure promises, and be no plainer.)
#[tactic(auto, unfolding(crate::specs::Calls::if_lent, crate::specs::Calls::begun, frame::specs::Choice::pick))]
pub fn begin(s: Sender, message: &[u8], counts: &mut [u8]) -> Answer
    ensures { kept (told result) counts.new ≡ kept_of s (begin message.now) counts.old }
{
    let Some(words) = counts.as_mut_array() else {
        return s.refusing(NOT_LENT.into());
    };
    let answer = s.begin(message);
    if is_refused(answer.outcome) {
        return answer;
    }
    words.fill(0);
    counted(answer, words)
}

// A tick, lent the message that was begun; its frame is counted.
#[tactic(auto, unfolding(crate::specs::Calls::if_lent, frame::specs::Choice::pick))]
pub fn tick(s: Sender, message: &[u8], counts: &mut [u8]) -> Answer
    ensures { kept (told result) counts.new ≡ kept_of s (tick message.now) counts.old }
{
    let Some(words) = counts.as_mut_array() else {
        return s.refusing(NOT_LENT.into());
    };
    counted(s.tick(message), words)
}

// A frame that is heard; what it draws is counted.
#[tactic(auto, unfolding(crate::specs::Calls::if_lent, frame::specs::Choice::pick))]
pub fn hear(s: Sender, f: Frame, counts: &mut [u8]) -> Answer
    ensures { kept (told result) counts.new ≡ kept_of s (hear f) counts.old }
{
    let Some(words) = counts.as_mut_array() else {
        return s.refusing(NOT_LENT.into());
    };
    counted(s.hear(f), words)
}

// Emits a message as one SM_URM, which is no information frame.
#[tactic(auto, unfolding(crate::specs::Calls::if_lent, frame::specs::Choice::pick))]
pub fn post(s: Sender, message: &[u8], counts: &mut [u8]) -> Answer
    ensures { kept (told result) counts.new ≡ kept_of s (post message.now) counts.old }
{
    let Some(words) = counts.as_mut_array() else {
        return s.refusing(NOT_LENT.into());
    };
    counted(s.post(message), words)
}
