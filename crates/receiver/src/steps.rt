// The steps that the calls share: the changed state, and the answer of each kind.
ghost use Rattle.frame.specs.Cause.{cause_of};
ghost use Rattle.std.specs.Prelude.{◌≡◌};
ghost use Rattle.frame.specs.Result.{number_of};
ghost use Rattle.receiver.specs.Misses.{acknowledged, timed_out};
ghost use Rattle.receiver.specs.State.{opened, marked, in_phase};
ghost use Rattle.receiver.specs.Told.{
  told,
  refusing,
  silently,
  emitting,
  delivering,
  failing_with,
  failing,
  short_with,
  short_only,
};

use crate::{Answer, Connection, Delivery, Misses, Outcome, Phase, Receiver};
use frame::build::lm_nack;
use frame::{Cause, Frame, Refusal};

impl Misses {
    // An LM_ACK has gone out: the wait is one after it, and the count stays.
    pub(crate) fn acknowledged(self) -> Misses
        ensures { result ≡ acknowledged self }
    {
        match self {
            Misses::NoneAfterFrame => Misses::NoneAfterAck,
            misses => misses,
        }
    }

    // What stands after a timeout more: of the same type as those counted, the first, or of another type and so the first again.
    // None where it is the third of its type in a row.
    pub(crate) fn timed_out(self) -> Option<Misses>
        ensures { result ≡ timed_out self }
    {
        match self {
            Misses::NoneAfterAck => Some(Misses::OneAfterAck),
            Misses::OneAfterAck => Some(Misses::TwoAfterAck),
            Misses::TwoAfterAck => None,
            Misses::NoneAfterFrame => Some(Misses::OneAfterFrame),
            Misses::OneAfterFrame => Some(Misses::OneAfterAck),
        }
    }
}

impl Connection {
    // Just opened, for the N and L that were announced.
    pub(crate) fn opened(asked: Delivery, last: u8) -> Connection
        ensures { result ≡ opened asked.frames asked.length last }
    {
        Connection {
            frames: asked.frames,
            length: asked.length,
            expected: 1,
            last,
            wait: 0,
            misses: Misses::NoneAfterAck,
            held: false,
            holds: 0,
        }
    }

    // An LM_ACK has gone out: the wait is one after it.
    pub(crate) fn acknowledged(self) -> Connection
        ensures { result ≡ marked self self.held self.last self.wait self.holds }
    {
        Connection {
            misses: self.misses.acknowledged(),
            ..self
        }
    }
}

impl Receiver {
    pub(crate) fn in_phase(self, phase: Phase) -> Receiver
        ensures { result ≡ in_phase self phase }
    {
        Receiver { phase, ..self }
    }

    // The state alone. (The other answers differ from it, or from one another, in a field or two.)
    pub(crate) fn silently(self) -> Answer
        ensures { told result ≡ silently self }
    {
        Answer {
            next: self,
            frame: None,
            outcome: Outcome::Quiet,
        }
    }

    // A refusal, no frame.
    pub(crate) fn refusing(self, refusal: Refusal) -> Answer
        ensures { told result ≡ refusing self (number_of refusal) }
    {
        Answer {
            outcome: Outcome::Refused(refusal.into()),
            ..self.silently()
        }
    }

    // The state and a frame.
    pub(crate) fn emitting(self, frame: Frame) -> Answer
        ensures { told result ≡ emitting self frame }
    {
        Answer {
            frame: Some(frame),
            ..self.silently()
        }
    }

    // The state, a frame and a delivery of so many bytes.
    pub(crate) fn delivering(self, frame: Frame, length: u16) -> Answer
        ensures { told result ≡ delivering self frame length }
    {
        Answer {
            outcome: Outcome::Delivered(length),
            ..self.emitting(frame)
        }
    }

    // A failure that emits nothing. The last delivery is forgotten.
    pub(crate) fn failing(self, cause: Cause) -> Answer
        ensures { told result ≡ failing self (cause_of cause) }
    {
        Answer {
            outcome: Outcome::Failed(cause.into()),
            ..self.in_phase(Phase::Idle).silently()
        }
    }

    // A failure that emits the NACK of its cause.
    pub(crate) fn failing_with(self, cause: Cause) -> Answer
        ensures { told result ≡ failing_with self (cause_of cause) }
    {
        Answer {
            frame: Some(lm_nack(u8::from(cause))),
            ..self.failing(cause)
        }
    }

    // A short delivery and no frame.
    pub(crate) fn short_only(self, bytes: [u8; 8]) -> Answer
        ensures { told result ≡ short_only self bytes }
    {
        Answer {
            outcome: Outcome::Short(bytes),
            ..self.silently()
        }
    }

    // A short delivery and a frame.
    pub(crate) fn short_with(self, frame: Frame, bytes: [u8; 8]) -> Answer
        ensures { told result ≡ short_with self frame bytes }
    {
        Answer {
            frame: Some(frame),
            ..self.short_only(bytes)
        }
    }
}
