// LM_ACK: the window that it asks for.
ghost use Rattle.std.specs.Prelude.{◌≡◌};
ghost use Rattle.sender.specs.Hear.{
  window_last,
  sending_from,
  taking,
  is_void,
  misses_at,
  asks_to_hold,
  taking_hold,
  ack_below,
  ack_window,
  hear_ack,
};
ghost use Rattle.sender.specs.Told.{told};

use crate::{Answer, Phase, Sender, Streamed, Transfer};
use frame::Cause;

// What an LM_ACK asks for: so many frames from number `start` on.
#[derive(Clone, Copy)]
pub(crate) struct Window {
    pub(crate) start: u8,
    pub(crate) count: u8,
}

impl Window {
    // It is ignored for its numbers alone.
    pub(crate) fn is_void(self) -> bool
        ensures { result ≡ is_void self.start self.count }
    {
        (self.start == 0) | (self.count == 0)
    }

    // Its last number: the smaller of start + count − 1 and N.
    fn last(self, frames: u8) -> u8
        ensures { result ≡ window_last self.start self.count frames }
    {
        let last = (u16::from(self.start) + u16::from(self.count)).saturating_sub(1);
        last.min(u16::from(frames)) as u8
    }

    // One frame, and that the one before the last start taken.
    fn asks_to_hold(self, taken: u8) -> bool
        ensures { result ≡ asks_to_hold taken self.start self.count }
    {
        (u16::from(self.start) + 1 == u16::from(taken)) & (self.count == 1)
    }
}

// The misses stay where the start is the last one taken.
#[tactic(auto, unfolding(frame::specs::Choice::pick))]
fn misses_at(start: u8, taken: u8, misses: u16) -> u16
    ensures { result ≡ misses_at start taken misses }
{
    if start == taken { misses } else { 0 }
}

impl Transfer {
    // Sending, from the first frame of a window to its last. `taken` is the last start taken.
    fn sending_from(self, taken: u8, first: u8, last: u8, misses: u16) -> Phase
        ensures { result ≡ sending_from self taken first last misses }
    {
        Phase::Sending(Streamed {
            transfer: self,
            start: taken,
            next: first,
            last,
            gap: 0,
            misses,
        })
    }
}

impl Sender {
    // Sends the window that an LM_ACK asks for.
    #[tactic(auto, unfolding(crate::specs::Hear::taking))]
    pub(crate) fn taking(self, transfer: Transfer, asked: Window, misses: u16) -> Answer
        ensures { told result ≡ taking self transfer asked.start asked.count misses }
    {
        let start = asked.start;
        let last = asked.last(transfer.frames);
        self.in_phase(transfer.sending_from(start, start, last, misses))
            .silently()
    }

    // Sends the one frame that a hold asks for; the last start taken stays, and goes beside what is asked.
    #[tactic(auto, unfolding(crate::specs::Hear::taking_hold))]
    fn taking_hold(self, transfer: Transfer, taken: u8, start: u8) -> Answer
        ensures { told result ≡ taking_hold self transfer taken start }
    {
        self.in_phase(transfer.sending_from(taken, start, start, 0))
            .silently()
    }

    // A start below the last one taken: a hold's, or an old one.
    #[tactic(auto, unfolding(crate::specs::Hear::ack_below, frame::specs::Choice::pick))]
    fn ack_below(self, transfer: Transfer, taken: u8, asked: Window) -> Answer
        ensures { told result ≡ ack_below self transfer taken asked.start asked.count }
    {
        if asked.asks_to_hold(taken) {
            self.taking_hold(transfer, taken, asked.start)
        } else {
            self.silently()
        }
    }

    // `taken` is the last start taken.
    #[tactic(auto, unfolding(crate::specs::Hear::ack_window, frame::specs::Choice::pick))]
    fn ack_window(self, transfer: Transfer, taken: u8, misses: u16, asked: Window) -> Answer
        ensures { told result ≡ ack_window self transfer taken misses asked.start asked.count }
    {
        if asked.is_void() {
            return self.silently();
        }
        if transfer.frames < asked.start {
            return self.failing_with(transfer, Cause::Number);
        }
        if asked.start < taken {
            return self.ack_below(transfer, taken, asked);
        }
        let misses = misses_at(asked.start, taken, misses);
        self.taking(transfer, asked, misses)
    }

    #[tactic(auto, unfolding(crate::specs::Hear::hear_ack))]
    pub(crate) fn hear_ack(self, asked: Window) -> Answer
        ensures { told result ≡ hear_ack self self.phase asked.start asked.count }
    {
        match self.phase {
            Phase::Opening(x) => self.ack_opening(x.transfer, asked),
            Phase::Sending(x) => self.ack_window(x.transfer, x.start, x.misses, asked),
            Phase::Waiting(x) => self.ack_window(x.transfer, x.start, x.misses, asked),
            Phase::Idle | Phase::Short(_) => self.silently(),
        }
    }
}
