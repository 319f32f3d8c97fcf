// The calls, each lent what it needs. Lent a line of another length than 576, nothing happens and all stays. What a call
// is not lent may hold anything: the promise is for all of it.
ghost use Rattle.std.specs.Prelude.{◌≡◌, ◌&&◌, List, ℕ};
ghost use Rattle.frame.specs.Choice.{pick};
ghost use Rattle.transport.specs.Answer.{world_of, told, answer_of, is_line, lent_of};
ghost use Rattle.transport.specs.World.{
  begin,
  sender_tick,
  receiver_tick,
  hold,
  resume,
  hear_forward,
  repeat_forward,
  lose_forward,
  hear_back,
  repeat_back,
  lose_back,
};

use crate::{Answer, Ends};
use line::LINE;

// Each call is written out, also where two differ in the call alone: what it calls and what it promises is all that it has. The
// lines are tested first, so that no end is called where one has another length.
impl Ends {
    // Begins a message.
    pub fn begin(self, message: &[u8], forward: &mut [u8]) -> Answer
        ensures { (back buffer : List ℕ) →
            told result forward.new back buffer
            ≡ lent_of (is_line forward.old)
            (world_of self forward.old back buffer)
            (begin message.now) }
    {
        let Some(forward) = forward.as_mut_array::<LINE>() else {
            return self.unheard();
        };
        let a = self.sender.begin(message);
        self.sender_spoke(a, forward)
    }

    // A tick of the sender.
    pub fn tick_sender(self, message: &[u8], forward: &mut [u8]) -> Answer
        ensures { (back buffer : List ℕ) →
            told result forward.new back buffer
            ≡ lent_of (is_line forward.old)
            (world_of self forward.old back buffer)
            (sender_tick message.now) }
    {
        let Some(forward) = forward.as_mut_array::<LINE>() else {
            return self.unheard();
        };
        let a = self.sender.tick(message);
        self.sender_spoke(a, forward)
    }

    // A tick of the receiver.
    pub fn tick_receiver(self, back: &mut [u8]) -> Answer
        ensures { (forward buffer : List ℕ) →
            told result forward back.new buffer
            ≡ lent_of (is_line back.old)
            (world_of self forward back.old buffer)
            receiver_tick }
    {
        let Some(back) = back.as_mut_array::<LINE>() else {
            return self.unheard();
        };
        let a = self.receiver.tick();
        self.receiver_spoke(a, back)
    }

    // The receiver holds the transfer.
    pub fn hold(self, back: &mut [u8]) -> Answer
        ensures { (forward buffer : List ℕ) →
            told result forward back.new buffer
            ≡ lent_of (is_line back.old)
            (world_of self forward back.old buffer)
            hold }
    {
        let Some(back) = back.as_mut_array::<LINE>() else {
            return self.unheard();
        };
        let a = self.receiver.hold();
        self.receiver_spoke(a, back)
    }

    // The receiver ends its hold.
    pub fn resume(self, back: &mut [u8]) -> Answer
        ensures { (forward buffer : List ℕ) →
            told result forward back.new buffer
            ≡ lent_of (is_line back.old)
            (world_of self forward back.old buffer)
            resume }
    {
        let Some(back) = back.as_mut_array::<LINE>() else {
            return self.unheard();
        };
        let a = self.receiver.resume();
        self.receiver_spoke(a, back)
    }

    // The first frame of forward is heard, if there is one: taken away where `takes` is true (hear), else kept
    // (repeat). One function for both, since one promise speaks of both.
    pub fn hear_forward(
        self,
        takes: bool,
        buffer: &mut [u8],
        forward: &[u8],
        back: &mut [u8],
    ) -> Answer
        ensures { told result forward.now back.new buffer.new
            ≡ lent_of (is_line forward.now && is_line back.old)
            (world_of self forward.now back.old buffer.old)
            (pick takes (hear_forward buffer.old) (repeat_forward buffer.old)) }
    {
        let Some(forward) = forward.as_array::<LINE>() else {
            return self.unheard();
        };
        let Some(back) = back.as_mut_array::<LINE>() else {
            return self.unheard();
        };
        if self.forward.is_empty() {
            return self.unheard();
        }
        let given = self.give_forward(buffer, forward, back);
        if takes {
            Answer {
                next: given.next.without_forward(),
                ..given
            }
        } else {
            given
        }
    }

    // The first frame of back is heard, if there is one: taken away where `takes` is true (hear), else kept
    // (repeat). One function for both, as `hear_forward`.
    pub fn hear_back(self, takes: bool, forward: &mut [u8], back: &[u8]) -> Answer
        ensures { (buffer : List ℕ) →
            told result forward.new back.now buffer
            ≡ lent_of (is_line forward.old && is_line back.now)
            (world_of self forward.old back.now buffer)
            (pick takes hear_back repeat_back) }
    {
        let Some(forward) = forward.as_mut_array::<LINE>() else {
            return self.unheard();
        };
        let Some(back) = back.as_array::<LINE>() else {
            return self.unheard();
        };
        if self.back.is_empty() {
            return self.unheard();
        }
        let given = self.give_back(forward, back);
        if takes {
            Answer {
                next: given.next.without_back(),
                ..given
            }
        } else {
            given
        }
    }

    // The first frame of forward is lost, if there is one.
    pub fn lose_forward(self) -> Answer
        ensures { (forward back buffer : List ℕ) →
            told result forward back buffer ≡ answer_of (world_of self forward back buffer) lose_forward }
    {
        self.without_forward().unheard()
    }

    // The first frame of back is lost, if there is one.
    pub fn lose_back(self) -> Answer
        ensures { (forward back buffer : List ℕ) →
            told result forward back buffer ≡ answer_of (world_of self forward back buffer) lose_back }
    {
        self.without_back().unheard()
    }
}
