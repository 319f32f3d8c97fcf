// The sender.
ghost use Rattle.std.specs.Prelude.{◌≡◌};
ghost use Rattle.kospelna.specs.Frames.{frame_from};
ghost use Rattle.kospelna.specs.Send.{sender_from, flat_answer, flat_made};
ghost use Rattle.sender.specs.Begin.{begin_of, post_of};
ghost use Rattle.sender.specs.Hear.{hear_of};
ghost use Rattle.sender.specs.Make.{make_of};
ghost use Rattle.sender.specs.Tick.{tick_of};

use kospelna::frames::FlatFrame;
use kospelna::send::{FlatSender, FlatSenderAnswer, FlatSenderMade};

// An idle sender with these settings.
#[unsafe(no_mangle)]
pub extern "C" fn kospelna_sender_make(gap: u16, timeout: u16, limit: u16) -> FlatSenderMade
    ensures { result ≡ flat_made (make_of gap timeout limit) }
{
    kospelna::send::kospelna_sender_make(gap, timeout, limit)
}

// Begins a transfer of the lent message.
#[unsafe(no_mangle)]
pub extern "C" fn kospelna_sender_begin(sender: FlatSender, message: &[u8]) -> FlatSenderAnswer
    ensures { result ≡ flat_answer (begin_of (sender_from sender) message.now) }
{
    kospelna::send::kospelna_sender_begin(sender, message)
}

// Emits the lent message as one SM_URM.
#[unsafe(no_mangle)]
pub extern "C" fn kospelna_sender_post(sender: FlatSender, message: &[u8]) -> FlatSenderAnswer
    ensures { result ≡ flat_answer (post_of (sender_from sender) message.now) }
{
    kospelna::send::kospelna_sender_post(sender, message)
}

// A tick, lent the message that was begun.
#[unsafe(no_mangle)]
pub extern "C" fn kospelna_sender_tick(sender: FlatSender, message: &[u8]) -> FlatSenderAnswer
    ensures { result ≡ flat_answer (tick_of (sender_from sender) message.now) }
{
    kospelna::send::kospelna_sender_tick(sender, message)
}

// A frame is heard.
#[unsafe(no_mangle)]
pub extern "C" fn kospelna_sender_hear(sender: FlatSender, frame: FlatFrame) -> FlatSenderAnswer
    ensures { result ≡ flat_answer (hear_of (sender_from sender) (frame_from frame)) }
{
    kospelna::send::kospelna_sender_hear(sender, frame)
}
