// The parameter groups: what each holds, where, and in which range. Two tables say it; reading and writing follow them.
#![tactic(auto)]

ghost use Rattle.std.specs.Prelude.{◌≡◌, ◌≤◌};
ghost use Rattle.frame.specs.Result.{told_result};
ghost use Rattle.groups.specs.Table.{find_of};
ghost use Rattle.groups.specs.Format.{size_of};

use crate::table::GROUPS;
use frame::Refusal;

mod judge;
pub mod read;
mod table;
pub mod write;

// How many bytes a field has: none, where a group has no such field, one, or two, low byte first.
#[derive(Clone, Copy)]
pub enum Width {
    None,
    Byte,
    Word,
}

// A kind of field: the values from low to high are allowed, and the two marks.
#[derive(Clone, Copy)]
pub struct Kind {
    pub width: Width,
    pub low: u16,
    pub high: u16,
    pub mark: u16,
    pub other: u16,
}

#[derive(Clone, Copy)]
pub enum Sender {
    Charger,
    Vehicle,
}

// A row of the table of groups. Its fields are numbers of kinds, one by one as the group's values and the C interface have them.
#[derive(Clone, Copy)]
pub struct Row {
    pub code: u8,
    pub length: usize,
    pub sender: Sender,
    pub reliable: bool,
    pub first: usize,
    pub second: usize,
    pub third: usize,
    pub fourth: usize,
}

// A group's code and the values of its fields, 0 where it has none. One by one, as the C interface has them: to a proof an array is
// a list of any length, and `read_written` of specs/RoundTrips.antt, which holds of every group, would not hold of those.
#[derive(Clone, Copy)]
pub struct Group {
    pub code: u8,
    pub first: u16,
    pub second: u16,
    pub third: u16,
    pub fourth: u16,
}

impl Width {
    // How many bytes a field of this width has: a case's size is what it means, and not its number.
    fn size(self) -> usize
        ensures { (result ≡ size_of self) × (result ≤ 2) }
    {
        match self {
            Width::None => 0,
            Width::Byte => 1,
            Width::Word => 2,
        }
    }
}

// The row of a code, or refusal 9.
pub fn find(code: u8) -> Result<Row, Refusal>
    ensures { told_result result ≡ find_of code }
{
    GROUPS
        .iter()
        .copied()
        .find(|row| row.code == code)
        .ok_or(Refusal::Group)
}
