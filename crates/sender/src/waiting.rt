// Waiting: the window has gone out, and its last frame goes again at a timeout.
ghost use Rattle.std.specs.Prelude.{◌≡◌};
ghost use Rattle.sender.specs.Tick.{waiting_on, waiting_again, tick_waiting};
ghost use Rattle.sender.specs.Told.{told};

use crate::tick::information_at;
use crate::{Answer, Awaited, Sender};
use frame::Cause;
use frame::count::increment;

impl Sender {
    // The wait after the window goes on.
    pub(crate) fn waiting_on(self, x: Awaited) -> Answer
        ensures { told result ≡ waiting_on self x }
    {
        let transfer = x.transfer.aged();
        let phase = x.waiting_with(transfer, increment(x.wait), x.misses);
        self.in_phase(phase).silently()
    }

    // The window's last frame goes out again.
    fn waiting_again(self, x: Awaited, message: &[u8]) -> Answer
        ensures { told result ≡ waiting_again self x message.now }
    {
        let frame = information_at(x.last, message);
        let transfer = x.transfer.aged().counted();
        let phase = x.waiting_with(transfer, 0, increment(x.misses));
        self.in_phase(phase).emitting(frame)
    }

    #[tactic(auto, unfolding(crate::specs::Tick::tick_waiting, crate::specs::Tick::unless_over, crate::specs::Tick::at_limit, crate::specs::Tick::unless_third, frame::specs::Choice::pick))]
    pub(crate) fn tick_waiting(self, x: Awaited, message: &[u8]) -> Answer
        ensures { told result ≡ tick_waiting self x message.now }
    {
        let transfer = x.transfer.aged();
        if self.settings.limit <= transfer.age {
            return self.failing_with(transfer, Cause::TimeOver);
        }
        if increment(x.wait) < self.settings.timeout {
            return self.waiting_on(x);
        }
        if 3 <= increment(x.misses) {
            return self.failing_with(transfer, Cause::Timeouts);
        }
        self.waiting_again(x, message)
    }
}
