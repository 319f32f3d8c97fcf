// Making both ends, at an empty line, of the numbers that their making takes.
ghost use Rattle.std.specs.Prelude.{◌≡◌};
ghost use Rattle.frame.specs.Result.{told_result};
ghost use Rattle.transport.specs.Make.{make_of};

use crate::Ends;
use frame::Refusal;
use line::Ring;
use receiver::Receiver;
use sender::Sender;

impl Ends {
    // Makes both ends: refused 1 for a setting, the sender's first.
    pub fn make(
        gap: u16,
        timeout: u16,
        limit: u16,
        patience: u16,
        window: u16,
        capacity: u16,
    ) -> Result<Ends, Refusal>
        ensures { told_result result ≡ make_of gap timeout limit patience window capacity }
    {
        let sender = Sender::make(gap, timeout, limit)?;
        let receiver = Receiver::make(patience, window, capacity)?;
        let empty = Ring::empty();
        Ok(Ends {
            sender,
            receiver,
            forward: empty,
            back: empty,
        })
    }
}
