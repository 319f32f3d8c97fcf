// LM_EndofACK: the receiver has the message. N and L go as two numbers: a struct of the two would be built for one call, to be
// compared field by field.
ghost use Rattle.std.specs.Prelude.{◌≡◌};
ghost use Rattle.sender.specs.Hear.{if_whole, hear_end};
ghost use Rattle.sender.specs.Told.{told};

use crate::{Answer, Awaited, Phase, Sender, Streamed, Transfer};

impl Sender {
    // Sent, if N and L are those of the transfer.
    #[tactic(auto, unfolding(crate::specs::Hear::if_whole, frame::specs::Choice::pick))]
    fn if_whole(self, transfer: Transfer, frames: u8, length: u16) -> Answer
        ensures { told result ≡ if_whole self transfer frames length }
    {
        if frames == transfer.frames && length == transfer.length {
            self.finishing(transfer)
        } else {
            self.silently()
        }
    }

    #[tactic(auto, unfolding(crate::specs::Hear::hear_end))]
    pub(crate) fn hear_end(self, frames: u8, length: u16) -> Answer
        ensures { told result ≡ hear_end self self.phase frames length }
    {
        match self.phase {
            Phase::Sending(Streamed { transfer, .. }) | Phase::Waiting(Awaited { transfer, .. }) =>
                { self.if_whole(transfer, frames, length) }
            Phase::Idle | Phase::Opening(_) | Phase::Short(_) => self.silently(),
        }
    }
}
