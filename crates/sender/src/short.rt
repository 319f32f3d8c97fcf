// Short: SM_RM is out. Its ticks, and the SM_ACKs that it hears.
ghost use Rattle.std.specs.Prelude.{◌≡◌};
ghost use Rattle.sender.specs.Hear.{if_first, hear_short_ack};
ghost use Rattle.sender.specs.Tick.{short_on, short_again, tick_short};
ghost use Rattle.sender.specs.Told.{told};

use crate::{Answer, Phase, Sender, Single, Transfer};
use frame::Cause;
use frame::build::sm_rm;
use frame::count::increment;

impl Sender {
    // The wait for an SM_ACK goes on.
    pub(crate) fn short_on(self, x: Single) -> Answer
        ensures { told result ≡ short_on self x }
    {
        let phase = x.transfer.aged().short_with(increment(x.wait));
        self.in_phase(phase).silently()
    }

    // SM_RM goes out again.
    fn short_again(self, x: Single, message: &[u8]) -> Answer
        ensures { told result ≡ short_again self x message.now }
    {
        let frame = sm_rm(message);
        let transfer = x.transfer.aged().counted();
        self.in_phase(transfer.short_with(0)).emitting(frame)
    }

    #[tactic(auto, unfolding(crate::specs::Tick::tick_short, crate::specs::Tick::unless_over, crate::specs::Tick::at_limit, frame::specs::Choice::pick))]
    pub(crate) fn tick_short(self, x: Single, message: &[u8]) -> Answer
        ensures { told result ≡ tick_short self x message.now }
    {
        let transfer = x.transfer.aged();
        if self.settings.limit <= transfer.age {
            return self.failing(transfer, Cause::TimeOver);
        }
        if self.settings.timeout <= increment(x.wait) {
            return self.short_again(x, message);
        }
        self.short_on(x)
    }

    // Sent, if the first byte is that of the message.
    #[tactic(auto, unfolding(crate::specs::Hear::if_first, frame::specs::Choice::pick))]
    fn if_first(self, transfer: Transfer, first: u8) -> Answer
        ensures { told result ≡ if_first self transfer first }
    {
        if first == transfer.first {
            self.finishing(transfer)
        } else {
            self.silently()
        }
    }

    #[tactic(auto, unfolding(crate::specs::Hear::hear_short_ack))]
    pub(crate) fn hear_short_ack(self, first: u8) -> Answer
        ensures { told result ≡ hear_short_ack self self.phase first }
    {
        match self.phase {
            Phase::Short(x) => self.if_first(x.transfer, first),
            Phase::Idle | Phase::Opening(_) | Phase::Sending(_) | Phase::Waiting(_) => {
                self.silently()
            }
        }
    }
}
