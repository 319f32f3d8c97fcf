// Sending: the frames of a window go out, one at each gap's end.
ghost use Rattle.std.specs.Prelude.{◌≡◌};
ghost use Rattle.sender.specs.Tick.{waiting_after, after_frame, sending_next, sending_on, tick_sending};
ghost use Rattle.sender.specs.Told.{told};

use crate::tick::information_at;
use crate::{Answer, Awaited, Phase, Sender, Streamed, Transfer};
use frame::Cause;
use frame::count::increment;

impl Streamed {
    // The window has gone out. Field by field: the phase after it is another type.
    fn waiting_after(self, transfer: Transfer) -> Phase
        ensures { result ≡ waiting_after self transfer }
    {
        Phase::Waiting(Awaited {
            transfer,
            start: self.start,
            last: self.last,
            wait: 0,
            misses: self.misses,
        })
    }

    // The phase after the next frame of the window has gone out.
    #[tactic(auto, unfolding(crate::specs::Tick::after_frame, frame::specs::Choice::pick))]
    fn after_frame(self) -> Phase
        ensures { result ≡ after_frame self }
    {
        let transfer = self.transfer.aged().counted();
        if self.last <= self.next {
            self.waiting_after(transfer)
        } else {
            self.sending_with(transfer, self.next + 1, 0)
        }
    }
}

impl Sender {
    // The next frame of the window goes out.
    fn sending_next(self, x: Streamed, message: &[u8]) -> Answer
        ensures { told result ≡ sending_next self x message.now }
    {
        let frame = information_at(x.next, message);
        self.in_phase(x.after_frame()).emitting(frame)
    }

    // The gap before the next frame goes on.
    pub(crate) fn sending_on(self, x: Streamed) -> Answer
        ensures { told result ≡ sending_on self x }
    {
        let transfer = x.transfer.aged();
        let phase = x.sending_with(transfer, x.next, increment(x.gap));
        self.in_phase(phase).silently()
    }

    // (`tick_short` tests as this does; a failure emits nothing there.)
    #[tactic(auto, unfolding(crate::specs::Tick::tick_sending, crate::specs::Tick::unless_over, crate::specs::Tick::at_limit, frame::specs::Choice::pick))]
    pub(crate) fn tick_sending(self, x: Streamed, message: &[u8]) -> Answer
        ensures { told result ≡ tick_sending self x message.now }
    {
        let transfer = x.transfer.aged();
        if self.settings.limit <= transfer.age {
            return self.failing_with(transfer, Cause::TimeOver);
        }
        if self.settings.gap <= increment(x.gap) {
            return self.sending_next(x, message);
        }
        self.sending_on(x)
    }
}
