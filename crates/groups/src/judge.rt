// Judging a group's values by its row. Reading and writing both ask here.
ghost use Rattle.std.specs.Prelude.{◌≡◌};
ghost use Rattle.groups.specs.Format.{allowed, row_allows, values};
ghost use Rattle.groups.specs.Table.{IsNumbered};

use crate::table::kind_at;
use crate::{Group, Kind, Row};
use frame::count::within;

// A kind allows a value.
#[tactic(auto, unfolding(crate::specs::Format::allowed))]
fn allowed(kind: Kind, value: u16) -> bool
    ensures { result ≡ allowed kind value }
{
    within(kind.low, value, kind.high) || value == kind.mark || value == kind.other
}

// A row allows a group's values, each by the kind of its field. It is inlined, so that row and group stay in registers: a call
// would write them to the stack.
#[tactic(auto, unfolding(crate::specs::Format::row_allows))]
#[inline(always)]
pub(crate) fn row_allows(row: Row, group: Group) -> bool
    requires { IsNumbered row }
    ensures { result ≡ row_allows row (values group) }
{
    allowed(kind_at(row.first), group.first)
        && allowed(kind_at(row.second), group.second)
        && allowed(kind_at(row.third), group.third)
        && allowed(kind_at(row.fourth), group.fourth)
}
