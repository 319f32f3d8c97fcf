// A tick of the sender, by its phase.
ghost use Rattle.std.specs.Prelude.{◌≡◌, ◌-◌, ◌*◌, min};
ghost use Rattle.sender.specs.Tick.{information_at, lent_to, tick_of};
ghost use Rattle.sender.specs.Told.{told};

use crate::{Answer, Phase, Sender};
use frame::build::information;
use frame::{Frame, Refusal};

// Where the part of frame `number` starts in a message of this length, at most its end.
fn part_start(number: u8, length: usize) -> usize
    ensures { result ≡ min (7 * (number - 1)) length }
{
    (7 * usize::from(number.saturating_sub(1))).min(length)
}

// Frame `number` of the lent message.
pub(crate) fn information_at(number: u8, message: &[u8]) -> Frame
    ensures { result ≡ information_at number message.now }
{
    let from = part_start(number, message.len());
    information(number, &message[from..])
}

impl Phase {
    // The lent message has the begun length; an idle sender takes any. An arm for each phase: with one for all that have a
    // transfer a tick takes up to two fifths more instructions, since it is told anew which phase it is in.
    #[tactic(auto, unfolding(crate::specs::Tick::lent_to))]
    fn lent_to(self, message: &[u8]) -> bool
        ensures { result ≡ lent_to self message.now }
    {
        match self {
            Phase::Idle => true,
            Phase::Opening(x) => message.len() == usize::from(x.transfer.length),
            Phase::Sending(x) => message.len() == usize::from(x.transfer.length),
            Phase::Waiting(x) => message.len() == usize::from(x.transfer.length),
            Phase::Short(x) => message.len() == usize::from(x.transfer.length),
        }
    }
}

impl Sender {
    // Whether a tick may be lent this message.
    pub fn is_lent(self, message: &[u8]) -> bool
        ensures { result ≡ lent_to self.phase message.now }
    {
        self.phase.lent_to(message)
    }

    // A tick, lent the message that was begun. Refused 4 where its length is another.
    #[tactic(auto, unfolding(crate::specs::Tick::tick_of, crate::specs::Tick::tick_phase, frame::specs::Choice::pick))]
    pub fn tick(self, message: &[u8]) -> Answer
        ensures { told result ≡ tick_of self message.now }
    {
        if !self.is_lent(message) {
            return self.refusing(Refusal::OtherMessage.into());
        }
        match self.phase {
            Phase::Idle => self.silently(),
            Phase::Opening(x) => self.tick_opening(x),
            Phase::Sending(x) => self.tick_sending(x, message),
            Phase::Waiting(x) => self.tick_waiting(x, message),
            Phase::Short(x) => self.tick_short(x, message),
        }
    }
}
