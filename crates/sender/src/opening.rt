// Opening: the announcement is out. Its ticks, and the LM_ACKs that it hears.
ghost use Rattle.std.specs.Prelude.{◌≡◌};
ghost use Rattle.sender.specs.Hear.{ack_opening};
ghost use Rattle.sender.specs.Tick.{opening_on, opening_again, tick_opening};
ghost use Rattle.sender.specs.Told.{told};

use crate::ack::Window;
use crate::{Announced, Answer, Sender, Transfer};
use frame::Cause;
use frame::build::announcement;
use frame::count::increment;

impl Sender {
    // The wait for an LM_ACK goes on. (Each phase goes on, and sends again, in functions of its own: each has its own type,
    // and what is left in common is one line.)
    pub(crate) fn opening_on(self, x: Announced) -> Answer
        ensures { told result ≡ opening_on self x }
    {
        let phase = x.transfer.aged().opening_with(increment(x.wait), x.misses);
        self.in_phase(phase).silently()
    }

    // The announcement goes out again.
    fn opening_again(self, x: Announced) -> Answer
        ensures { told result ≡ opening_again self x }
    {
        let frame = announcement(x.transfer.frames, x.transfer.length);
        let transfer = x.transfer.aged().counted();
        let phase = transfer.opening_with(0, increment(x.misses));
        self.in_phase(phase).emitting(frame)
    }

    // `tick_waiting` has this shape too. One function for both would take as closures what goes on and what goes out again,
    // and be no plainer.
    #[tactic(auto, unfolding(crate::specs::Tick::tick_opening, crate::specs::Tick::unless_over, crate::specs::Tick::at_limit, crate::specs::Tick::unless_third, frame::specs::Choice::pick))]
    pub(crate) fn tick_opening(self, x: Announced) -> Answer
        ensures { told result ≡ tick_opening self x }
    {
        let transfer = x.transfer.aged();
        if self.settings.limit <= transfer.age {
            return self.failing_with(transfer, Cause::TimeOver);
        }
        if increment(x.wait) < self.settings.timeout {
            return self.opening_on(x);
        }
        if 3 <= increment(x.misses) {
            return self.failing_with(transfer, Cause::Timeouts);
        }
        self.opening_again(x)
    }

    // The first two tests are those of `ack_window`; what is left of the two is not alike.
    #[tactic(auto, unfolding(crate::specs::Hear::ack_opening, frame::specs::Choice::pick))]
    pub(crate) fn ack_opening(self, transfer: Transfer, asked: Window) -> Answer
        ensures { told result ≡ ack_opening self transfer asked.start asked.count }
    {
        if asked.is_void() {
            return self.silently();
        }
        if transfer.frames < asked.start {
            return self.failing_with(transfer, Cause::Number);
        }
        if asked.start == 1 {
            self.taking(transfer, asked, 0)
        } else {
            self.silently()
        }
    }
}
