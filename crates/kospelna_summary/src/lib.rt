// The summary over C's layouts: the sender's calls, which also keep the lent counts, and what is
// read of these. The crate kospelna_summary_c exports the functions under their names: one for each that C calls.
#![tactic(auto)]

ghost use Rattle.std.specs.Prelude.{◌≡◌};
ghost use Rattle.frame.specs.Result.{told_result};
ghost use Rattle.kospelna.specs.Frames.{frame_from};
ghost use Rattle.kospelna.specs.Send.{sender_from};
ghost use Rattle.kospelna_summary.specs.Summary.{flat_with, flat_kept, flat_count, count_out};
ghost use Rattle.sender.specs.Call.{begin, tick, hear, post};
ghost use Rattle.summary.specs.Calls.{kept_of};
ghost use Rattle.summary.specs.Most.{count_of, most_of};

use frame::Refusal;
use kospelna::answers::refusal_and_value;
use kospelna::frames::FlatFrame;
use kospelna::send::{FlatSender, FlatSenderAnswer};
use sender::Sender;
use summary::Count;

// This struct is the C interface: a refusal's number beside a value is
// C's form of Result.

// The refusal's number, 0 where there is none; a number and its count, zeros where refused.
#[repr(C)]
#[derive(Clone, Copy, Default)]
pub struct FlatCount {
    pub refusal: u8,
    pub number: u8,
    pub count: u16,
}

impl From<Count> for FlatCount {
    ghost from_gives = { λ x flat. flat ≡ flat_count 0 x };

    fn from(x: Count) -> FlatCount {
        FlatCount {
            refusal: 0,
            number: x.number,
            count: x.count,
        }
    }
}

impl From<Result<Count, Refusal>> for FlatCount {
    ghost from_gives = { λ answer flat. flat ≡ count_out (told_result answer) };

    fn from(answer: Result<Count, Refusal>) -> FlatCount {
        let (refusal, value) = refusal_and_value::<Count, FlatCount>(answer);
        FlatCount { refusal, ..value }
    }
}

// Begins a transfer of the lent message; where it is accepted the counts start again.
pub fn kospelna_summary_begin(
    sender: FlatSender,
    message: &[u8],
    counts: &mut [u8],
) -> FlatSenderAnswer
    ensures { flat_with result counts.new
        ≡ flat_kept (kept_of (sender_from sender) (begin message.now) counts.old) }
{
    summary::calls::begin(Sender::from(sender), message, counts).into()
}

// Emits the lent message as one SM_URM.
pub fn kospelna_summary_post(
    sender: FlatSender,
    message: &[u8],
    counts: &mut [u8],
) -> FlatSenderAnswer
    ensures { flat_with result counts.new
        ≡ flat_kept (kept_of (sender_from sender) (post message.now) counts.old) }
{
    summary::calls::post(Sender::from(sender), message, counts).into()
}

// A tick, lent the message that was begun. One that is refused or emits nothing is answered before
// the summary's, without a frame. Each of these ways reads the flat sender for itself and takes of it
// what it needs: read once for all, it would be taken apart whole before the first test.
pub fn kospelna_summary_tick(
    sender: FlatSender,
    message: &[u8],
    counts: &mut [u8],
) -> FlatSenderAnswer
    ensures { flat_with result counts.new
        ≡ flat_kept (kept_of (sender_from sender) (tick message.now) counts.old) }
{
    if counts.len() != summary::SIZE {
        return Sender::from(sender).refusing(Refusal::Lent.into()).into();
    }
    if !Sender::from(sender).is_lent(message) {
        return Sender::from(sender)
            .refusing(Refusal::OtherMessage.into())
            .into();
    }
    if Sender::from(sender).is_silent() {
        return Sender::from(sender).tick_silently().into();
    }
    summary::calls::tick(Sender::from(sender), message, counts).into()
}

// A frame is heard.
pub fn kospelna_summary_hear(
    sender: FlatSender,
    frame: FlatFrame,
    counts: &mut [u8],
) -> FlatSenderAnswer
    ensures { flat_with result counts.new
        ≡ flat_kept (kept_of (sender_from sender) (hear (frame_from frame)) counts.old) }
{
    summary::calls::hear(Sender::from(sender), frame.into(), counts).into()
}

// The count of a number.
pub fn kospelna_summary_count(number: u8, counts: &[u8]) -> FlatCount
    ensures { result ≡ count_out (count_of number counts.now) }
{
    summary::most::count_of(number, counts).into()
}

// The number that was sent most often, and its count.
pub fn kospelna_summary_most(counts: &[u8]) -> FlatCount
    ensures { result ≡ count_out (most_of counts.now) }
{
    summary::most::most_of(counts).into()
}
