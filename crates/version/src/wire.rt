// The version message: eight bytes, the same for both sides.
#![tactic(auto, unfolding(crate::specs::Message::verdict_of, crate::specs::Message::verdict_read, crate::specs::Message::write_of, crate::specs::Message::read_of, frame::specs::Choice::pick))]

ghost use Rattle.std.specs.Prelude.{◌≡◌};
ghost use Rattle.frame.specs.Result.{told_result};
ghost use Rattle.version.specs.Message.{
  verdict_byte,
  verdict_read,
  named,
  write_of,
  read_of,
};

use crate::list::version_of;
use crate::{Message, Verdict};
use frame::Refusal;

impl From<Verdict> for u8 {
    ghost from_gives = { λ verdict byte. byte ≡ verdict_byte verdict };

    fn from(verdict: Verdict) -> u8 {
        verdict as u8
    }
}

impl TryFrom<u8> for Verdict {
    type Error = Refusal;

    ghost try_from_gives = { λ byte r. told_result r ≡ verdict_read byte };

    fn try_from(byte: u8) -> Result<Verdict, Refusal> {
        match byte {
            0 => Ok(Verdict::Continue),
            1 => Ok(Verdict::Success),
            2 => Ok(Verdict::Failure),
            _ => Err(Refusal::Value),
        }
    }
}

// The version that a message names: a failure's is FF FF FF.
fn named(verdict: Verdict, version: u32) -> u32
    ensures { result ≡ named verdict version }
{
    match verdict {
        Verdict::Continue | Verdict::Success => version,
        Verdict::Failure => 0xFFFFFF,
    }
}

// The bytes of a message. CAN type 0x00 is CAN 2.0B; the transport version is 0x01.
pub fn write(m: Message) -> [u8; 8]
    ensures { result ≡ write_of m }
{
    let [_, major, minor, temporary] = named(m.verdict, m.version).to_be_bytes();
    let result = u8::from(m.verdict);
    [0x00, result, major, minor, temporary, m.control, 0x01, 0xFF]
}

// The message of eight bytes, or refusal 10 for another CAN type than 0 or a result above 2.
pub fn read(bytes: [u8; 8]) -> Result<Message, Refusal>
    ensures { told_result result ≡ read_of bytes }
{
    let [can_type, result, major, minor, temporary, control, _, _] = bytes;
    if can_type != 0 {
        return Err(Refusal::Value);
    }
    Ok(Message {
        verdict: Verdict::try_from(result)?,
        version: version_of(major, minor, temporary),
        control,
    })
}
