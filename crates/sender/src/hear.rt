// A frame that the sender hears, by its kind.
ghost use Rattle.std.specs.Prelude.{◌≡◌};
ghost use Rattle.sender.specs.Hear.{hear_kind, hear_of};
ghost use Rattle.sender.specs.Told.{told};

use crate::ack::Window;
use crate::{Answer, Sender};
use frame::count::word;
use frame::read::read;
use frame::{Frame, LONGEST, Parsed, Refusal};

impl Sender {
    // A frame that was read, by its kind. Refused 7 where the kind is for the other end. The match on the number is document
    // 01's.
    #[tactic(auto, unfolding(crate::specs::Hear::hear_kind, frame::specs::Choice::pick))]
    fn hear_kind(self, f: Frame, parsed: Parsed) -> Answer
        ensures { told result ≡ hear_kind self f parsed }
    {
        let bytes = f.bytes;
        match parsed.kind {
            2 => self.hear_ack(Window {
                start: bytes[0],
                count: bytes[1],
            }),
            3 => self.hear_nack(),
            4 => self.hear_end(bytes[0], word(bytes[1], bytes[2])),
            6 => self.hear_short_ack(bytes[0]),
            0..=1 | 5 | 7..=255 => self.refusing(Refusal::OtherEnd.into()),
        }
    }

    // A frame that is heard. Refused 6 where it cannot be read. (`let .. else` is document 01's form, and reading refuses for
    // nothing else.)
    #[tactic(auto, unfolding(crate::specs::Hear::hear_of, crate::specs::Hear::hear_read, frame::specs::Reading::read_of, frame::specs::Choice::pick))]
    pub fn hear(self, f: Frame) -> Answer
        ensures { told result ≡ hear_of self f }
    {
        let reading = read(f, LONGEST);
        let Ok(parsed) = reading else {
            return self.refusing(Refusal::Unreadable.into());
        };
        self.hear_kind(f, parsed)
    }
}
