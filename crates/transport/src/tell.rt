// What an end answered becomes the transport's answer, and its frame joins its line. Once for each end, since what they answer
// has other types.
ghost use Rattle.std.specs.Prelude.{◌≡◌, List, ◌++◌, ℕ, take, is_some};
ghost use Rattle.frame.specs.Frames.{frame_or_blank};
ghost use Rattle.line.specs.Ring.{frames_in};
ghost use Rattle.receiver.specs.Told as receiver-told;
ghost use Rattle.sender.specs.Told as sender-told;
ghost use Rattle.transport.specs.Answer.{world_of, told, told_step, quietly};
ghost use Rattle.transport.specs.Capped.{at_line};
ghost use Rattle.transport.specs.Step.{emission, by_sender, by_receiver};
ghost use Rattle.transport.specs.World.{Call, Given};

use crate::{Answer, Ends, Said};
use frame::Frame;
use line::{LINE, Ring};

// A line after a call that emitted a frame or none.
#[tactic(auto, using(crate::proofs::Calls::answers))]
fn line_after(ring: Ring, frame: Option<Frame>, bytes: &mut [u8; LINE]) -> Ring
    ensures { frames_in result bytes.new
        ≡ take 64 (frames_in ring bytes.old ++ emission (is_some frame) (frame_or_blank frame)) }
{
    match frame {
        Some(f) => ring.join(f, bytes),
        None => ring,
    }
}

impl Ends {
    // No end was called.
    #[tactic(auto, unfolding(crate::specs::Answer::told, crate::specs::Answer::quietly))]
    pub(crate) fn unheard(self) -> Answer
        ensures { (forward back buffer : List ℕ) →
            told result forward back buffer ≡ quietly (world_of self forward back buffer) }
    {
        Answer {
            next: self,
            said: Said {
                frame: None,
                sender: sender::Outcome::Quiet,
                receiver: receiver::Outcome::Quiet,
            },
        }
    }

    // The sender has answered a call, given a frame or none: its frame joins forward. Whatever back and the buffer hold.
    pub(crate) fn sender_spoke(self, a: sender::Answer, forward: &mut [u8; LINE]) -> Answer
        ensures { (c : Call) (given : Given) (back buffer : List ℕ) →
            told result forward.new back buffer
            ≡ told_step (at_line (by_sender c (world_of self forward.old back buffer) given
            (frames_in self.back back) (sender-told.told a))) }
    {
        let forward = line_after(self.forward, a.frame, forward);
        Answer {
            next: Ends {
                sender: a.next,
                forward,
                ..self
            },
            said: Said {
                frame: a.frame,
                sender: a.outcome,
                receiver: receiver::Outcome::Quiet,
            },
        }
    }

    // The receiver has answered a call, given a frame or none: its frame joins back. Whatever forward holds, and the buffer as
    // the call left it.
    pub(crate) fn receiver_spoke(self, a: receiver::Answer, back: &mut [u8; LINE]) -> Answer
        ensures { (c : Call) (given : Given) (forward buffer : List ℕ) →
            told result forward back.new buffer
            ≡ told_step (at_line (by_receiver c (world_of self forward back.old buffer) given
            (frames_in self.forward forward) (receiver-told.heard (receiver-told.told a) buffer))) }
    {
        let back = line_after(self.back, a.frame, back);
        Answer {
            next: Ends {
                receiver: a.next,
                back,
                ..self
            },
            said: Said {
                frame: a.frame,
                sender: sender::Outcome::Quiet,
                receiver: a.outcome,
            },
        }
    }
}
