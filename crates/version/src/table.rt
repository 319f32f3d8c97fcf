// The columns and the entries of tables 8 (charger) and 9 (vehicle) of 001.
ghost use Rattle.std.specs.Prelude.{◌≡◌};
ghost use Rattle.version.specs.Table.{told_trigger, told_entry, cell_of};
ghost use Rattle.version.specs.Talk.{keeps_timing};

use crate::charger::charger_cell;
use crate::vehicle::vehicle_cell;
use crate::{Side, State};

// A column: what is heard or due.
#[derive(Clone, Copy)]
pub(crate) enum Trigger {
    Connected,
    PeriodDue,
    SuccessOther,
    SuccessBelow2,
    Success2,
    FailureHeard,
    ContinueSame,
    ContinueLower,
    ContinueHigher,
    ContinueNone,
    Greeted,
    Stopped,
    LimitDue,
}

// What a cell says is done. A cell names it, and does not hold the step as a closure: the definitions name it too, cell by cell.
#[derive(Clone, Copy)]
pub(crate) enum Entry {
    Nothing,
    Opens,
    Repeats,
    Resumes,
    SettlesBelow2,
    Settles,
    Fails,
    Accepts,
    Stays,
    Lowers,
    Leaves,
}

impl Side {
    // The cell of a side's table.
    pub(crate) fn cell(self, state: State, trigger: Trigger) -> Entry
        ensures { told_entry result ≡ cell_of self state (told_trigger trigger) }
    {
        match self {
            Side::Charger => charger_cell(state, trigger),
            Side::Vehicle => vehicle_cell(state, trigger),
        }
    }

    // The vehicle's S3 keeps T1 running.
    pub(crate) fn keeps_timing(self) -> bool
        ensures { result ≡ keeps_timing self }
    {
        matches!(self, Side::Vehicle)
    }
}
