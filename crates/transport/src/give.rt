// The first frame of a line: given to the far end, and taken away. Stated for each direction: the far ends have other types
// and answers, and what is left in common is one line.
ghost use Rattle.std.specs.Prelude.{◌≡◌, List, false, ℕ, eqb};
ghost use Rattle.transport.specs.Answer.{world_of, told, answer_of};
ghost use Rattle.transport.specs.Capped.{capped_step};
ghost use Rattle.transport.specs.World.{repeat_forward, lose_forward, repeat_back, lose_back};

use crate::{Answer, Ends};
use line::LINE;

impl Ends {
    #[tactic(auto, using(crate::proofs::Calls::losses))]
    pub(crate) fn without_forward(self) -> Ends
        ensures { (forward back buffer : List ℕ) →
            world_of result forward back buffer
            ≡ (capped_step (world_of self forward back buffer) lose_forward).world }
    {
        Ends {
            forward: self.forward.rest(),
            ..self
        }
    }

    #[tactic(auto, using(crate::proofs::Calls::losses))]
    pub(crate) fn without_back(self) -> Ends
        ensures { (forward back buffer : List ℕ) →
            world_of result forward back buffer
            ≡ (capped_step (world_of self forward back buffer) lose_back).world }
    {
        Ends {
            back: self.back.rest(),
            ..self
        }
    }

    // The first frame of forward is heard, and stays where it is. Both lines go apart: one is read, the other written.
    pub(crate) fn give_forward(
        self,
        buffer: &mut [u8],
        forward: &[u8; LINE],
        back: &mut [u8; LINE],
    ) -> Answer
        requires { eqb self.forward.count 0 ≡ false }
        ensures { told result forward.now back.new buffer.new
            ≡ answer_of (world_of self forward.now back.old buffer.old)
            (repeat_forward buffer.old) }
    {
        let f = self.forward.head(forward);
        let a = self.receiver.hear(f, buffer);
        self.receiver_spoke(a, back)
    }

    // The first frame of back is heard, and stays where it is.
    pub(crate) fn give_back(self, forward: &mut [u8; LINE], back: &[u8; LINE]) -> Answer
        requires { eqb self.back.count 0 ≡ false }
        ensures { (buffer : List ℕ) →
            told result forward.new back.now buffer
            ≡ answer_of (world_of self forward.old back.now buffer) repeat_back }
    {
        let f = self.back.head(back);
        let a = self.sender.hear(f);
        self.sender_spoke(a, forward)
    }
}
