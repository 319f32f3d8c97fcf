// Table 8 of 001, the charger's: a row for each state, a cell for each trigger. S2 to S5 have no
// transition. S1's rows of both tables differ in one cell; each stands whole, as its table has it.
ghost use Rattle.std.specs.Prelude.{◌≡◌};
ghost use Rattle.version.specs.Table.{told_trigger, told_entry, charger_s0, charger_s1, charger_cell};

use crate::State;
use crate::table::{Entry, Trigger};

fn charger_s0(trigger: Trigger) -> Entry
    ensures { told_entry result ≡ charger_s0 (told_trigger trigger) }
{
    match trigger {
        Trigger::Connected => Entry::Opens,
        _ => Entry::Nothing,
    }
}

fn charger_s1(trigger: Trigger) -> Entry
    ensures { told_entry result ≡ charger_s1 (told_trigger trigger) }
{
    match trigger {
        Trigger::Connected => Entry::Nothing,
        Trigger::PeriodDue => Entry::Repeats,
        Trigger::SuccessOther => Entry::Resumes,
        Trigger::SuccessBelow2 => Entry::SettlesBelow2,
        Trigger::Success2 => Entry::Settles,
        Trigger::FailureHeard => Entry::Fails,
        Trigger::ContinueSame => Entry::Accepts,
        Trigger::ContinueLower => Entry::Stays,
        Trigger::ContinueHigher => Entry::Lowers,
        Trigger::ContinueNone => Entry::Fails,
        Trigger::Greeted => Entry::Nothing,
        Trigger::Stopped => Entry::Leaves,
        Trigger::LimitDue => Entry::Fails,
    }
}

pub(crate) fn charger_cell(state: State, trigger: Trigger) -> Entry
    ensures { told_entry result ≡ charger_cell state (told_trigger trigger) }
{
    match state {
        State::S0 => charger_s0(trigger),
        State::S1 => charger_s1(trigger),
        State::S2 | State::S3 | State::S4 | State::S5 => Entry::Nothing,
    }
}
