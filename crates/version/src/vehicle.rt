// Table 9 of 001, the vehicle's: a row for each state, a cell for each trigger. S2, S4 and S5 have
// no transition. S1's row stands whole beside the charger's, as its table has it.
ghost use Rattle.std.specs.Prelude.{◌≡◌};
ghost use Rattle.version.specs.Table.{
  told_trigger,
  told_entry,
  vehicle_s0,
  vehicle_s1,
  vehicle_s3,
  vehicle_cell,
};

use crate::State;
use crate::table::{Entry, Trigger};

fn vehicle_s0(trigger: Trigger) -> Entry
    ensures { told_entry result ≡ vehicle_s0 (told_trigger trigger) }
{
    match trigger {
        Trigger::Connected => Entry::Opens,
        Trigger::Greeted => Entry::Fails,
        _ => Entry::Nothing,
    }
}

fn vehicle_s1(trigger: Trigger) -> Entry
    ensures { told_entry result ≡ vehicle_s1 (told_trigger trigger) }
{
    match trigger {
        Trigger::Connected => Entry::Nothing,
        Trigger::PeriodDue => Entry::Repeats,
        Trigger::SuccessOther => Entry::Resumes,
        Trigger::SuccessBelow2 => Entry::SettlesBelow2,
        Trigger::Success2 => Entry::Settles,
        Trigger::FailureHeard => Entry::Fails,
        Trigger::ContinueSame => Entry::Accepts,
        Trigger::ContinueLower => Entry::Stays,
        Trigger::ContinueHigher => Entry::Lowers,
        Trigger::ContinueNone => Entry::Fails,
        Trigger::Greeted => Entry::Fails,
        Trigger::Stopped => Entry::Leaves,
        Trigger::LimitDue => Entry::Fails,
    }
}

// S3 goes on sending success.
fn vehicle_s3(trigger: Trigger) -> Entry
    ensures { told_entry result ≡ vehicle_s3 (told_trigger trigger) }
{
    match trigger {
        Trigger::PeriodDue => Entry::Repeats,
        _ => Entry::Nothing,
    }
}

pub(crate) fn vehicle_cell(state: State, trigger: Trigger) -> Entry
    ensures { told_entry result ≡ vehicle_cell state (told_trigger trigger) }
{
    match state {
        State::S0 => vehicle_s0(trigger),
        State::S1 => vehicle_s1(trigger),
        State::S3 => vehicle_s3(trigger),
        State::S2 | State::S4 | State::S5 => Entry::Nothing,
    }
}
