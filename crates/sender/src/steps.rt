// The steps that the calls share: the changed state, and the answers that end no transfer.
ghost use Rattle.std.specs.Prelude.{◌≡◌};
ghost use Rattle.sender.specs.State.{
  aged,
  counted,
  opening_with,
  sending_with,
  waiting_with,
  short_with,
  in_phase,
};
ghost use Rattle.sender.specs.Told.{told, refusing, silently, emitting};

use crate::{Announced, Answer, Awaited, Outcome, Phase, Sender, Single, Streamed, Transfer};
use frame::Frame;
use frame::count::increment;

impl Transfer {
    // One tick more.
    pub(crate) fn aged(self) -> Transfer
        ensures { result ≡ aged self }
    {
        Transfer {
            age: increment(self.age),
            ..self
        }
    }

    // One frame more.
    pub(crate) fn counted(self) -> Transfer
        ensures { result ≡ counted self }
    {
        Transfer {
            emitted: increment(self.emitted),
            ..self
        }
    }

    // Opening: a transfer with its wait and misses, as the definition takes them. (One such function for each phase, two of them
    // alike: the phases are other types.)
    pub(crate) fn opening_with(self, wait: u16, misses: u16) -> Phase
        ensures { result ≡ opening_with self wait misses }
    {
        Phase::Opening(Announced {
            transfer: self,
            wait,
            misses,
        })
    }

    // Short: a transfer with its wait.
    pub(crate) fn short_with(self, wait: u16) -> Phase
        ensures { result ≡ short_with self wait }
    {
        Phase::Short(Single {
            transfer: self,
            wait,
        })
    }
}

impl Streamed {
    // Sending: the same window, at another frame or gap count.
    pub(crate) fn sending_with(self, transfer: Transfer, next: u8, gap: u16) -> Phase
        ensures { result ≡ sending_with self transfer next gap }
    {
        Phase::Sending(Streamed {
            transfer,
            next,
            gap,
            ..self
        })
    }
}

impl Awaited {
    // Waiting: the same window, with another wait or other misses.
    pub(crate) fn waiting_with(self, transfer: Transfer, wait: u16, misses: u16) -> Phase
        ensures { result ≡ waiting_with self transfer wait misses }
    {
        Phase::Waiting(Awaited {
            transfer,
            wait,
            misses,
            ..self
        })
    }
}

impl Sender {
    // (This and the answers below are the receiver's too, of other types: their promises name each end's own state.)
    pub(crate) fn in_phase(self, phase: Phase) -> Sender
        ensures { result ≡ in_phase self phase }
    {
        Sender { phase, ..self }
    }

    // The state alone. (The other answers differ from it in a field.)
    pub(crate) fn silently(self) -> Answer
        ensures { told result ≡ silently self }
    {
        Answer {
            next: self,
            frame: None,
            outcome: Outcome::Quiet,
        }
    }

    // A refusal: its number, no frame and no report. Public for the summary, whose calls refuse counts lent with another length.
    pub fn refusing(self, number: u8) -> Answer
        ensures { told result ≡ refusing self number }
    {
        Answer {
            outcome: Outcome::Refused(number),
            ..self.silently()
        }
    }

    // The state and a frame.
    pub(crate) fn emitting(self, frame: Frame) -> Answer
        ensures { told result ≡ emitting self frame }
    {
        Answer {
            frame: Some(frame),
            ..self.silently()
        }
    }
}
