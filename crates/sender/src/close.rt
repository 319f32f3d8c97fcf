// How a transfer ends: its report.
ghost use Rattle.std.specs.Prelude.{◌≡◌, is_some};
ghost use Rattle.frame.specs.Cause.{cause_of};
ghost use Rattle.frame.specs.Frames.{frame_or_blank};
ghost use Rattle.sender.specs.Told.{told_outcome, told, closing, failing_with, failing, finishing};

use crate::{Answer, Outcome, Phase, Sender, Transfer};
use frame::build::lm_nack;
use frame::{Cause, Frame};

impl Sender {
    // The transfer is over; the sender is Idle.
    fn closing(self, frame: Option<Frame>, outcome: Outcome) -> Answer
        ensures { told result ≡ closing self (is_some frame) (frame_or_blank frame) (told_outcome outcome) }
    {
        let next = self.in_phase(Phase::Idle);
        Answer {
            next,
            frame,
            outcome,
        }
    }

    // A failure that emits nothing.
    pub(crate) fn failing(self, transfer: Transfer, cause: Cause) -> Answer
        ensures { told result ≡ failing self transfer (cause_of cause) }
    {
        let outcome = Outcome::Failed {
            cause: cause.into(),
            ticks: transfer.age,
            frames: transfer.emitted,
        };
        self.closing(None, outcome)
    }

    // A failure that emits the NACK of its cause, and counts it.
    pub(crate) fn failing_with(self, transfer: Transfer, cause: Cause) -> Answer
        ensures { told result ≡ failing_with self transfer (cause_of cause) }
    {
        Answer {
            frame: Some(lm_nack(u8::from(cause))),
            ..self.failing(transfer.counted(), cause)
        }
    }

    // The message has been acknowledged whole.
    pub(crate) fn finishing(self, sent: Transfer) -> Answer
        ensures { told result ≡ finishing self sent }
    {
        let outcome = Outcome::Sent {
            ticks: sent.age,
            frames: sent.emitted,
        };
        self.closing(None, outcome)
    }
}
