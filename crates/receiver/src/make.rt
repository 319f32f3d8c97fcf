// Making a receiver.
ghost use Rattle.std.specs.Prelude.{◌≡◌};
ghost use Rattle.frame.specs.Result.{told_result};
ghost use Rattle.receiver.specs.Make.{settings_fit, make_of};

use crate::{Phase, Receiver, Settings};
use frame::count::within;
use frame::{LONGEST, Refusal};

// T is 1 to 10000, C is 1 to 255, K is 9 to 1785. C hands them over as numbers, and `make_of` judges them.
fn settings_fit(timeout: u16, window: u16, capacity: u16) -> bool
    ensures { result ≡ settings_fit timeout window capacity }
{
    within(1, timeout, 10000) & within(1, window, 255) & within(9, capacity, LONGEST)
}

impl Receiver {
    // A receiver with these settings, Idle with nothing delivered; refused 1 where one is outside its limits.
    #[tactic(auto, unfolding(crate::specs::Make::make_of, frame::specs::Choice::pick))]
    pub fn make(timeout: u16, window: u16, capacity: u16) -> Result<Receiver, Refusal>
        ensures { told_result result ≡ make_of timeout window capacity }
    {
        if settings_fit(timeout, window, capacity) {
            Ok(Receiver {
                settings: Settings {
                    timeout,
                    window: window as u8,
                    capacity,
                },
                phase: Phase::Idle,
            })
        } else {
            Err(Refusal::Setting)
        }
    }
}
