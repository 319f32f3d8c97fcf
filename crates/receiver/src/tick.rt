// A tick: the wait of an open connection.
ghost use Rattle.std.specs.Prelude.{◌≡◌, ◌<◌};
ghost use Rattle.receiver.specs.Tick.{waiting, asking_again, timeout_free, holding_on, timeout_held, tick_open, tick_of};
ghost use Rattle.receiver.specs.Told.{told};

use crate::{Answer, Connection, Misses, Phase, Receiver};
use frame::Cause;
use frame::count::increment;

impl Receiver {
    // The wait grows.
    fn waiting(self, x: Connection) -> Answer
        ensures { told result ≡ waiting self x }
    {
        let waited = Connection {
            wait: increment(x.wait),
            ..x
        };
        self.in_phase(Phase::Open(waited)).silently()
    }

    // The window is asked for again, and these misses stand.
    fn asking_again(self, x: Connection, misses: Misses) -> Answer
        ensures { told result ≡ asking_again self x misses }
    {
        self.asking(x, x.expected, misses)
    }

    // The third of one type fails the connection; before it the window is asked for again.
    #[tactic(auto, unfolding(crate::specs::Tick::timeout_by))]
    fn timeout_free(self, x: Connection) -> Answer
        ensures { told result ≡ timeout_free self x }
    {
        match x.misses.timed_out() {
            None => self.failing_with(Cause::Timeouts),
            Some(misses) => self.asking_again(x, misses),
        }
    }

    // The hold's LM_ACK again, and counted.
    fn holding_on(self, x: Connection) -> Answer
        requires { x.holds < 20 }
        ensures { told result ≡ holding_on self x }
    {
        let kept = Connection {
            wait: 0,
            holds: x.holds + 1,
            ..x.acknowledged()
        };
        self.in_phase(Phase::Open(kept)).emitting(x.hold_ack())
    }

    // Twenty times; with these behind it, the connection fails.
    #[tactic(auto, unfolding(crate::specs::Tick::timeout_held, frame::specs::Choice::pick))]
    fn timeout_held(self, x: Connection) -> Answer
        ensures { told result ≡ timeout_held self x }
    {
        if 20 <= x.holds {
            self.failing_with(Cause::Timeouts)
        } else {
            self.holding_on(x)
        }
    }

    // Before T the wait grows; at T by the held mark.
    #[tactic(auto, unfolding(crate::specs::Tick::tick_open, frame::specs::Choice::pick))]
    fn tick_open(self, x: Connection) -> Answer
        ensures { told result ≡ tick_open self x }
    {
        if increment(x.wait) < self.settings.timeout {
            return self.waiting(x);
        }
        if x.held {
            return self.timeout_held(x);
        }
        self.timeout_free(x)
    }

    // One tick. Idle: nothing.
    #[tactic(auto, unfolding(crate::specs::Tick::tick_of, crate::specs::Tick::tick_phase))]
    pub fn tick(self) -> Answer
        ensures { told result ≡ tick_of self }
    {
        match self.phase {
            Phase::Idle | Phase::Done(_) => self.silently(),
            Phase::Open(x) => self.tick_open(x),
        }
    }
}
