// Frame 0: an announcement of N frames that hold L bytes, which asks for that delivery.
ghost use Rattle.std.specs.Prelude.{◌≡◌};
ghost use Rattle.receiver.specs.Hear.{
  announces_well,
  opening,
  announce_idle,
  announced_again,
  opening_again,
  announce_open,
  hear_announcement,
};
ghost use Rattle.receiver.specs.Told.{told};

use crate::{Answer, Connection, Delivery, Phase, Receiver};
use frame::build::{lm_ack, lm_nack};
use frame::count::{frame_count, within};
use frame::{Cause, LONGEST};

impl Delivery {
    // The length is one of a long message, and the number of frames is that of this length.
    fn announces_well(self) -> bool
        ensures { result ≡ announces_well self.frames self.length }
    {
        within(9, self.length, LONGEST) & (u16::from(self.frames) == frame_count(self.length))
    }
}

impl Connection {
    // The same N and L, before the first frame.
    fn announced_again(self, asked: Delivery) -> bool
        ensures { result ≡ announced_again self asked.frames asked.length }
    {
        (asked.frames == self.frames) & (asked.length == self.length) & (self.expected == 1)
    }
}

impl Receiver {
    // The announced connection, with its first window asked for.
    fn opening(self, asked: Delivery) -> Answer
        ensures { told result ≡ opening self asked.frames asked.length }
    {
        let last = self.settings.window_of(1, asked.frames);
        self.in_phase(Phase::Open(Connection::opened(asked, last)))
            .emitting(lm_ack(1, last))
    }

    // NACK 5 for a bad announcement, then NACK 1 for one that is over the capacity.
    #[tactic(auto, unfolding(crate::specs::Hear::announce_idle, frame::specs::Choice::pick))]
    fn announce_idle(self, asked: Delivery) -> Answer
        ensures { told result ≡ announce_idle self asked.frames asked.length }
    {
        if asked.announces_well() {
            if asked.length <= self.settings.capacity {
                self.opening(asked)
            } else {
                self.emitting(lm_nack(u8::from(Cause::NoSpace)))
            }
        } else {
            self.emitting(lm_nack(u8::from(Cause::Announcement)))
        }
    }

    // The first window is asked for again.
    fn opening_again(self, x: Connection) -> Answer
        ensures { told result ≡ opening_again self x }
    {
        self.emitting(lm_ack(1, x.last))
    }

    #[tactic(auto, unfolding(crate::specs::Hear::announce_open, frame::specs::Choice::pick))]
    fn announce_open(self, x: Connection, asked: Delivery) -> Answer
        ensures { told result ≡ announce_open self x asked.frames asked.length }
    {
        if x.announced_again(asked) {
            self.opening_again(x)
        } else {
            self.silently()
        }
    }

    #[tactic(auto, unfolding(crate::specs::Hear::hear_announcement))]
    pub(crate) fn hear_announcement(self, asked: Delivery) -> Answer
        ensures { told result ≡ hear_announcement self self.phase asked.frames asked.length }
    {
        match self.phase {
            Phase::Idle | Phase::Done(_) => self.announce_idle(asked),
            Phase::Open(x) => self.announce_open(x, asked),
        }
    }
}
