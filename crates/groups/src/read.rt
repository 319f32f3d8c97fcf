// Reading a group from eight bytes.
ghost use Rattle.std.specs.Prelude.{◌≡◌, ◌+◌, ◌≤◌, get_or, drop};
ghost use Rattle.frame.specs.Result.{told_result};
ghost use Rattle.groups.specs.Format.{kinds_of, size_of, value_of, group_from};
ghost use Rattle.groups.specs.Reading.{read_of};
ghost use Rattle.groups.specs.Table.{IsNumbered};

use crate::judge::row_allows;
use crate::table::kind_at;
use crate::{Group, Row, Width, find};
use frame::Refusal;
use frame::count::word;
use frame::read::all_filler;

// The byte at a place, 0 past the end.
fn byte_at(bytes: &[u8], at: usize) -> u8
    ensures { result ≡ get_or bytes.now at 0 }
{
    bytes.get(at).copied().unwrap_or(0)
}

// The value of a field that starts at a place, and the place behind it.
fn value_at(bytes: &[u8], at: usize, width: Width) -> (u16, usize)
    requires { at ≤ 7 }
    ensures value { result.0 ≡ value_of width (drop at bytes.now) }
    ensures behind { result.1 ≡ at + size_of width }
    ensures near { result.1 ≤ at + 2 }
{
    let value = match width {
        Width::None => 0,
        Width::Byte => u16::from(byte_at(bytes, at)),
        Width::Word => word(byte_at(bytes, at), byte_at(bytes, at + 1)),
    };
    (value, at + width.size())
}

// The code and the fields, one after the other from place 1 on.
#[tactic(auto, using(crate::proofs::Laws::group_whole))]
fn group_at(bytes: &[u8], code: u8, row: Row) -> Group
    requires { IsNumbered row }
    ensures { result ≡ group_from code (kinds_of row) bytes.now }
{
    let (first, at) = value_at(bytes, 1, kind_at(row.first).width);
    let (second, at) = value_at(bytes, at, kind_at(row.second).width);
    let (third, at) = value_at(bytes, at, kind_at(row.third).width);
    let (fourth, _) = value_at(bytes, at, kind_at(row.fourth).width);
    Group {
        code,
        first,
        second,
        third,
        fourth,
    }
}

// The group in eight lent bytes: refusal 9 for the length, the code and the filler, then 10 for a value.
#[tactic(auto, using(crate::proofs::Laws::reading, crate::proofs::Laws::row_numbered, crate::proofs::Laws::found_or))]
pub fn read(bytes: &[u8]) -> Result<Group, Refusal>
    ensures { told_result result ≡ read_of bytes.now }
{
    if bytes.len() != 8 {
        return Err(Refusal::Group);
    }
    let code = bytes[0];
    let row = find(code)?;
    if !all_filler(bytes, row.length) {
        return Err(Refusal::Group);
    }
    let group = group_at(bytes, code, row);
    if row_allows(row, group) {
        Ok(group)
    } else {
        Err(Refusal::Value)
    }
}
