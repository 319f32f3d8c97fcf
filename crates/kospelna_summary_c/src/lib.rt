// The exports of libkospelna_summary.a: each is the function of that name in the crate
// kospelna_summary, with its promise. include/kospelna.h declares them.
#![tactic(auto)]

ghost use Rattle.std.specs.Prelude.{◌≡◌};
ghost use Rattle.kospelna.specs.Frames.{frame_from};
ghost use Rattle.kospelna.specs.Send.{sender_from};
ghost use Rattle.kospelna_summary.specs.Summary.{flat_with, flat_kept, count_out};
ghost use Rattle.sender.specs.Call.{begin, tick, hear, post};
ghost use Rattle.summary.specs.Calls.{kept_of};
ghost use Rattle.summary.specs.Most.{count_of, most_of};

use kospelna::frames::FlatFrame;
use kospelna::send::{FlatSender, FlatSenderAnswer};
use kospelna_summary::FlatCount;

// Begins a transfer of the lent message; where it is accepted the counts start again.
#[unsafe(no_mangle)]
pub extern "C" fn kospelna_summary_begin(
    sender: FlatSender,
    message: &[u8],
    counts: &mut [u8],
) -> FlatSenderAnswer
    ensures { flat_with result counts.new
        ≡ flat_kept (kept_of (sender_from sender) (begin message.now) counts.old) }
{
    kospelna_summary::kospelna_summary_begin(sender, message, counts)
}

// Emits the lent message as one SM_URM.
#[unsafe(no_mangle)]
pub extern "C" fn kospelna_summary_post(
    sender: FlatSender,
    message: &[u8],
    counts: &mut [u8],
) -> FlatSenderAnswer
    ensures { flat_with result counts.new
        ≡ flat_kept (kept_of (sender_from sender) (post message.now) counts.old) }
{
    kospelna_summary::kospelna_summary_post(sender, message, counts)
}

// A tick, lent the message that was begun.
#[unsafe(no_mangle)]
pub extern "C" fn kospelna_summary_tick(
    sender: FlatSender,
    message: &[u8],
    counts: &mut [u8],
) -> FlatSenderAnswer
    ensures { flat_with result counts.new
        ≡ flat_kept (kept_of (sender_from sender) (tick message.now) counts.old) }
{
    kospelna_summary::kospelna_summary_tick(sender, message, counts)
}

// A frame is heard.
#[unsafe(no_mangle)]
pub extern "C" fn kospelna_summary_hear(
    sender: FlatSender,
    frame: FlatFrame,
    counts: &mut [u8],
) -> FlatSenderAnswer
    ensures { flat_with result counts.new
        ≡ flat_kept (kept_of (sender_from sender) (hear (frame_from frame)) counts.old) }
{
    kospelna_summary::kospelna_summary_hear(sender, frame, counts)
}

// The count of a number.
#[unsafe(no_mangle)]
pub extern "C" fn kospelna_summary_count(number: u8, counts: &[u8]) -> FlatCount
    ensures { result ≡ count_out (count_of number counts.now) }
{
    kospelna_summary::kospelna_summary_count(number, counts)
}

// The number that was sent most often, and its count.
#[unsafe(no_mangle)]
pub extern "C" fn kospelna_summary_most(counts: &[u8]) -> FlatCount
    ensures { result ≡ count_out (most_of counts.now) }
{
    kospelna_summary::kospelna_summary_most(counts)
}
