// Making a sender.
ghost use Rattle.std.specs.Prelude.{◌≡◌};
ghost use Rattle.frame.specs.Result.{told_result};
ghost use Rattle.sender.specs.Make.{settings_fit, make_of};

use crate::{Phase, Sender, Settings};
use frame::Refusal;
use frame::count::within;

// G is 1 to 10, T is 1 to 10000, M is 1 to 60000. (The receiver's are other settings, within other limits. C hands
// them over as numbers, and `make_of` judges them.)
fn settings_fit(gap: u16, timeout: u16, limit: u16) -> bool
    ensures { result ≡ settings_fit gap timeout limit }
{
    within(1, gap, 10) & (within(1, timeout, 10000) & within(1, limit, 60000))
}

impl Sender {
    // An idle sender with these settings; refused 1 where one is outside its limits.
    #[tactic(auto, unfolding(crate::specs::Make::make_of, frame::specs::Choice::pick))]
    pub fn make(gap: u16, timeout: u16, limit: u16) -> Result<Sender, Refusal>
        ensures { told_result result ≡ make_of gap timeout limit }
    {
        if settings_fit(gap, timeout, limit) {
            let settings = Settings {
                gap,
                timeout,
                limit,
            };
            Ok(Sender {
                settings,
                phase: Phase::Idle,
            })
        } else {
            Err(Refusal::Setting)
        }
    }
}
