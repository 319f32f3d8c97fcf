// Holding a transfer: hold, resume, and the LM_ACK that a hold repeats.
ghost use Rattle.std.specs.Prelude.{◌≡◌};
ghost use Rattle.receiver.specs.Hold.{
  hold_ack,
  may_hold,
  holding,
  hold_open,
  hold_of,
  resuming,
  resume_open,
  resume_of,
};
ghost use Rattle.receiver.specs.Told.{told};

use crate::window::window_ack;
use crate::{Answer, Connection, Phase, Receiver};
use frame::build::lm_ack;
use frame::{Frame, Refusal};

impl Connection {
    // LM_ACK e − 1, 1.
    pub(crate) fn hold_ack(self) -> Frame
        ensures { result ≡ hold_ack self }
    {
        lm_ack(self.expected.saturating_sub(1), 1)
    }

    // A frame has been accepted, and no hold stands.
    fn may_hold(self) -> bool
        ensures { result ≡ may_hold self }
    {
        (2 <= self.expected) & !self.held
    }
}

impl Receiver {
    // The mark is set. (`resuming` and a tick's `holding_on` change other fields and ask for other frames.)
    fn holding(self, x: Connection) -> Answer
        ensures { told result ≡ holding self x }
    {
        let kept = Connection {
            held: true,
            ..x.acknowledged()
        };
        self.in_phase(Phase::Open(kept)).emitting(x.hold_ack())
    }

    // (`resume_open` has this shape; its test and its step are others, and each has its definition. So have `hold` and `resume`.)
    #[tactic(auto, unfolding(crate::specs::Hold::hold_open, frame::specs::Choice::pick))]
    fn hold_open(self, x: Connection) -> Answer
        ensures { told result ≡ hold_open self x }
    {
        if x.may_hold() {
            self.holding(x)
        } else {
            self.refusing(Refusal::Hold)
        }
    }

    // Holds the transfer. Refused 13 where none is open, where frame 1 is expected, and where it is held.
    #[tactic(auto, unfolding(crate::specs::Hold::hold_of, crate::specs::Hold::hold_phase))]
    pub fn hold(self) -> Answer
        ensures { told result ≡ hold_of self }
    {
        match self.phase {
            Phase::Idle | Phase::Done(_) => self.refusing(Refusal::Hold),
            Phase::Open(x) => self.hold_open(x),
        }
    }

    // The mark goes, and the window from the frame expected on is asked for.
    fn resuming(self, x: Connection) -> Answer
        ensures { told result ≡ resuming self x }
    {
        let last = self.settings.window_of(x.expected, x.frames);
        let going = Connection {
            held: false,
            last,
            ..x.acknowledged()
        };
        self.in_phase(Phase::Open(going))
            .emitting(window_ack(x.expected, last))
    }

    #[tactic(auto, unfolding(crate::specs::Hold::resume_open, frame::specs::Choice::pick))]
    fn resume_open(self, x: Connection) -> Answer
        ensures { told result ≡ resume_open self x }
    {
        if x.held {
            self.resuming(x)
        } else {
            self.refusing(Refusal::Hold)
        }
    }

    // Ends the hold. Refused 13 where none stands.
    #[tactic(auto, unfolding(crate::specs::Hold::resume_of, crate::specs::Hold::resume_phase))]
    pub fn resume(self) -> Answer
        ensures { told result ≡ resume_of self }
    {
        match self.phase {
            Phase::Idle | Phase::Done(_) => self.refusing(Refusal::Hold),
            Phase::Open(x) => self.resume_open(x),
        }
    }
}
