// The parameter groups: read, written, and looked up. One function for each that C calls.
ghost use Rattle.std.specs.Prelude.{◌≡◌};
ghost use Rattle.frame.specs.Result.{told_result};
ghost use Rattle.kospelna.specs.Group.{
  group_in,
  group_out,
  reading_out,
  writing_out,
  written,
  written_out,
  row_out,
  finding_out,
};
ghost use Rattle.groups.specs.Reading.{read_of};
ghost use Rattle.groups.specs.Table.{find_of};
ghost use Rattle.groups.specs.Writing.{write_of};

use crate::answers::refusal_and_value;
use frame::Refusal;
use groups::{Group, Row};

// These structs are the C interface: a refusal's number beside a value, a flag beside what goes out and numbers for cases are
// C's forms of Result, Option and enum.

// C's layout; a type of its own, so that the inner type may change.
#[repr(C)]
#[derive(Clone, Copy, Default)]
pub struct FlatGroup {
    pub code: u8,
    pub first: u16,
    pub second: u16,
    pub third: u16,
    pub fourth: u16,
}

// The refusal's number, 0 where there is none, and the group, zeros where refused.
#[repr(C)]
#[derive(Clone, Copy)]
pub struct FlatGroupReading {
    pub refusal: u8,
    pub group: FlatGroup,
}

// The refusal's number, 0 where there is none.
#[repr(C)]
#[derive(Clone, Copy)]
pub struct FlatGroupWriting {
    pub refusal: u8,
}

// Side 0 is the charger, 1 the vehicle; the fields are their kinds' numbers.
#[repr(C)]
#[derive(Clone, Copy, Default)]
pub struct FlatGroupRow {
    pub code: u8,
    pub length: usize,
    pub side: u8,
    pub reliable: bool,
    pub first: usize,
    pub second: usize,
    pub third: usize,
    pub fourth: usize,
}

// The refusal's number, 0 where there is none, and the row, zeros where refused.
#[repr(C)]
#[derive(Clone, Copy)]
pub struct FlatGroupFinding {
    pub refusal: u8,
    pub row: FlatGroupRow,
}

impl From<FlatGroup> for Group {
    ghost from_gives = { λ flat group. group ≡ group_in flat };

    fn from(f: FlatGroup) -> Group {
        Group {
            code: f.code,
            first: f.first,
            second: f.second,
            third: f.third,
            fourth: f.fourth,
        }
    }
}

impl From<Group> for FlatGroup {
    ghost from_gives = { λ group flat. flat ≡ group_out group };

    fn from(group: Group) -> FlatGroup {
        FlatGroup {
            code: group.code,
            first: group.first,
            second: group.second,
            third: group.third,
            fourth: group.fourth,
        }
    }
}

impl From<Result<Group, Refusal>> for FlatGroupReading {
    ghost from_gives = { λ reading flat. flat ≡ reading_out (told_result reading) };

    fn from(reading: Result<Group, Refusal>) -> FlatGroupReading {
        let (refusal, group) = refusal_and_value(reading);
        FlatGroupReading { refusal, group }
    }
}

impl From<Result<(), Refusal>> for FlatGroupWriting {
    ghost from_gives = { λ writing flat. flat ≡ writing_out (told_result writing) };

    fn from(writing: Result<(), Refusal>) -> FlatGroupWriting {
        let (refusal, ()) = refusal_and_value(writing);
        FlatGroupWriting { refusal }
    }
}

impl From<Row> for FlatGroupRow {
    ghost from_gives = { λ row flat. flat ≡ row_out row };

    fn from(row: Row) -> FlatGroupRow {
        FlatGroupRow {
            code: row.code,
            length: row.length,
            side: row.sender as u8,
            reliable: row.reliable,
            first: row.first,
            second: row.second,
            third: row.third,
            fourth: row.fourth,
        }
    }
}

impl From<Result<Row, Refusal>> for FlatGroupFinding {
    ghost from_gives = { λ finding flat. flat ≡ finding_out (told_result finding) };

    fn from(finding: Result<Row, Refusal>) -> FlatGroupFinding {
        let (refusal, row) = refusal_and_value(finding);
        FlatGroupFinding { refusal, row }
    }
}

// The group in eight lent bytes: refusal 9 for the length, the code and the filler, then 10 for a
// value.
pub fn kospelna_group_read(bytes: &[u8]) -> FlatGroupReading
    ensures { result ≡ reading_out (read_of bytes.now) }
{
    groups::read::read(bytes).into()
}

// A group into eight lent bytes: refusal 9 for the length and the code, then 10 for a value; a
// refusal leaves the bytes.
pub fn kospelna_group_write(group: FlatGroup, bytes: &mut [u8]) -> FlatGroupWriting
    ensures { written result bytes.new ≡ written_out (write_of (group_in group) bytes.old) }
{
    groups::write::write(group.into(), bytes).into()
}

// The row of a code in the table of groups, or refusal 9.
pub fn kospelna_group_find(code: u8) -> FlatGroupFinding
    ensures { result ≡ finding_out (find_of code) }
{
    groups::find(code).into()
}
