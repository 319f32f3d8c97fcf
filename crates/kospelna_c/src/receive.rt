// The receiver.
ghost use Rattle.std.specs.Prelude.{◌≡◌};
ghost use Rattle.kospelna.specs.Frames.{frame_from};
ghost use Rattle.kospelna.specs.Receive.{receiver_from, flat_answer, flat_made, hearing, flat_heard};
ghost use Rattle.receiver.specs.Hear.{hear_of};
ghost use Rattle.receiver.specs.Hold.{hold_of, resume_of};
ghost use Rattle.receiver.specs.Make.{make_of};
ghost use Rattle.receiver.specs.Tick.{tick_of};

use kospelna::frames::FlatFrame;
use kospelna::receive::{FlatReceiver, FlatReceiverAnswer, FlatReceiverMade};

// An idle receiver with these settings, nothing delivered.
#[unsafe(no_mangle)]
pub extern "C" fn kospelna_receiver_make(
    timeout: u16,
    window: u16,
    capacity: u16,
) -> FlatReceiverMade
    ensures { result ≡ flat_made (make_of timeout window capacity) }
{
    kospelna::receive::kospelna_receiver_make(timeout, window, capacity)
}

// A tick.
#[unsafe(no_mangle)]
pub extern "C" fn kospelna_receiver_tick(receiver: FlatReceiver) -> FlatReceiverAnswer
    ensures { result ≡ flat_answer (tick_of (receiver_from receiver)) }
{
    kospelna::receive::kospelna_receiver_tick(receiver)
}

// The transfer is held.
#[unsafe(no_mangle)]
pub extern "C" fn kospelna_receiver_hold(receiver: FlatReceiver) -> FlatReceiverAnswer
    ensures { result ≡ flat_answer (hold_of (receiver_from receiver)) }
{
    kospelna::receive::kospelna_receiver_hold(receiver)
}

// The hold ends.
#[unsafe(no_mangle)]
pub extern "C" fn kospelna_receiver_resume(receiver: FlatReceiver) -> FlatReceiverAnswer
    ensures { result ≡ flat_answer (resume_of (receiver_from receiver)) }
{
    kospelna::receive::kospelna_receiver_resume(receiver)
}

// A frame is heard, with the buffer lent.
#[unsafe(no_mangle)]
pub extern "C" fn kospelna_receiver_hear(
    receiver: FlatReceiver,
    frame: FlatFrame,
    buffer: &mut [u8],
) -> FlatReceiverAnswer
    ensures { hearing result buffer.new
        ≡ flat_heard (hear_of (receiver_from receiver) (frame_from frame) buffer.old) }
{
    kospelna::receive::kospelna_receiver_hear(receiver, frame, buffer)
}
