// How often each information frame has gone out since the begin, beside the sender: the sender's calls, which also keep the
// counts, and what is read of these. The counts lie in lent bytes.
#![tactic(auto)]

pub mod calls;
mod counts;
pub mod most;

use frame::Refusal;

// A word for each number from 0 to 255.
pub const SIZE: usize = 512;

// Why a call is refused where the counts are not lent so many bytes. Named once for all calls.
const NOT_LENT: Refusal = Refusal::Lent;

// How many information frames with this number have gone out.
#[derive(Clone, Copy)]
pub struct Count {
    pub number: u8,
    pub count: u16,
}
