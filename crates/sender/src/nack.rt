// LM_NACK: the receiver has given up.
ghost use Rattle.std.specs.Prelude.{◌≡◌};
ghost use Rattle.sender.specs.Hear.{hear_nack};
ghost use Rattle.sender.specs.Told.{told};

use crate::{Announced, Answer, Awaited, Phase, Sender, Streamed};
use frame::Cause;

impl Sender {
    #[tactic(auto, unfolding(crate::specs::Hear::hear_nack))]
    pub(crate) fn hear_nack(self) -> Answer
        ensures { told result ≡ hear_nack self self.phase }
    {
        match self.phase {
            Phase::Opening(Announced { transfer, .. })
            | Phase::Sending(Streamed { transfer, .. })
            | Phase::Waiting(Awaited { transfer, .. }) => self.failing(transfer, Cause::NoSpace),
            Phase::Idle | Phase::Short(_) => self.silently(),
        }
    }
}
