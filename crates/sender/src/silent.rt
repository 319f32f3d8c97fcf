// Of the ticks that are not refused, those that emit nothing, apart from the others: whoever answers one of them need not look
// at a frame.
ghost use Rattle.std.specs.Prelude.{◌≡◌};
ghost use Rattle.sender.specs.SilentTicks.{goes_on, short_is_silent, silent_in, short_silently, silent_tick_in};
ghost use Rattle.sender.specs.Told.{told};

use crate::{Answer, Phase, Sender, Single, Transfer};
use frame::Cause;
use frame::count::increment;

impl Sender {
    // The count of a wait or gap stays short of its limit, and the age short of the sending time.
    fn goes_on(self, transfer: Transfer, limit: u16, count: u16) -> bool
        ensures { result ≡ goes_on self transfer limit count }
    {
        (increment(count) < limit) & (increment(transfer.age) < self.settings.limit)
    }

    // A short transfer waits on, or its sending time is over, at which it emits nothing.
    fn short_is_silent(self, x: Single) -> bool
        ensures { result ≡ short_is_silent self x }
    {
        (self.settings.limit <= increment(x.transfer.age))
            | (increment(x.wait) < self.settings.timeout)
    }

    // A silent tick of a short transfer: it fails where the sending time is over. (`tick_short` tests that too: to call this it
    // would have to ask first whether it is silent, and that is the test.)
    #[tactic(auto, unfolding(crate::specs::SilentTicks::short_silently, crate::specs::Tick::unless_over, frame::specs::Choice::pick))]
    fn short_silently(self, x: Single) -> Answer
        ensures { told result ≡ short_silently self x }
    {
        let transfer = x.transfer.aged();
        if self.settings.limit <= transfer.age {
            return self.failing(transfer, Cause::TimeOver);
        }
        self.short_on(x)
    }

    // Whether a tick that is lent its message emits nothing.
    #[tactic(auto, unfolding(crate::specs::SilentTicks::silent_in))]
    pub fn is_silent(self) -> bool
        ensures { result ≡ silent_in self self.phase }
    {
        match self.phase {
            Phase::Idle => true,
            Phase::Opening(x) => self.goes_on(x.transfer, self.settings.timeout, x.wait),
            Phase::Sending(x) => self.goes_on(x.transfer, self.settings.gap, x.gap),
            Phase::Waiting(x) => self.goes_on(x.transfer, self.settings.timeout, x.wait),
            Phase::Short(x) => self.short_is_silent(x),
        }
    }

    // What such a tick does; of no use for any other.
    #[tactic(auto, unfolding(crate::specs::SilentTicks::silent_tick_in))]
    pub fn tick_silently(self) -> Answer
        ensures { told result ≡ silent_tick_in self self.phase }
    {
        match self.phase {
            Phase::Idle => self.silently(),
            Phase::Opening(x) => self.opening_on(x),
            Phase::Sending(x) => self.sending_on(x),
            Phase::Waiting(x) => self.waiting_on(x),
            Phase::Short(x) => self.short_silently(x),
        }
    }
}
