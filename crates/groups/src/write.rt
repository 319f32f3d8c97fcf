// Writing a group to eight bytes.
ghost use Rattle.std.specs.Prelude.{◌≡◌, ◌+◌, ◌≤◌, set, length};
ghost use Rattle.std.proofs.lemmas.List.Edits.{sets};
ghost use Rattle.frame.specs.Result.{told_result};
ghost use Rattle.groups.specs.Format.{bytes_of, values, size_of, sizes_of, kinds_of, bytes_for};
ghost use Rattle.groups.specs.Table.{IsNumbered};
ghost use Rattle.groups.specs.Writing.{outcome, write_of};

use crate::judge::row_allows;
use crate::table::kind_at;
use crate::{Group, Row, Width, find};
use frame::{FILLER, Refusal};

// A byte at a place, nothing past the end. What is written through `get_mut` is not known to a proof.
fn put_byte(bytes: &mut [u8], at: usize, byte: u8)
    ensures { bytes.new ≡ set bytes.old at byte }
{
    if at < bytes.len() {
        bytes[at] = byte;
    }
}

// The bytes of a field that starts at a place; the answer is the place behind it.
fn put(bytes: &mut [u8], at: usize, width: Width, value: u16) -> usize
    requires { at ≤ 7 }
    ensures stored { bytes.new ≡ sets bytes.old at (bytes_of width value) }
    ensures behind { result ≡ at + size_of width }
    ensures near { result ≤ at + 2 }
{
    let [low, high] = value.to_le_bytes();
    match width {
        Width::None => {}
        Width::Byte => put_byte(bytes, at, low),
        Width::Word => {
            put_byte(bytes, at, low);
            put_byte(bytes, at + 1, high);
        }
    }
    at + width.size()
}

// The code and the fields, one after the other, and filler after them.
#[tactic(auto, using(crate::proofs::Laws::store_whole))]
fn store(bytes: &mut [u8], group: Group, row: Row)
    requires room { (length bytes.old ≡ 8) × (sizes_of (kinds_of row) ≤ 7) }
    requires numbered { IsNumbered row }
    ensures { bytes.new ≡ bytes_for group.code (kinds_of row) (values group) }
{
    bytes.fill(FILLER);
    bytes[0] = group.code;
    let at = put(bytes, 1, kind_at(row.first).width, group.first);
    let at = put(bytes, at, kind_at(row.second).width, group.second);
    let at = put(bytes, at, kind_at(row.third).width, group.third);
    put(bytes, at, kind_at(row.fourth).width, group.fourth);
}

// A group into eight lent bytes: refusal 9 for the length and the code, then 10 for a value; a refusal leaves the bytes.
#[tactic(auto, using(crate::proofs::Laws::writing, crate::proofs::Laws::row_numbered, crate::proofs::Laws::found_or))]
pub fn write(group: Group, bytes: &mut [u8]) -> Result<(), Refusal>
    ensures { outcome (told_result result) bytes.new ≡ write_of group bytes.old }
{
    if bytes.len() != 8 {
        return Err(Refusal::Group);
    }
    let row = find(group.code)?;
    if row_allows(row, group) {
        store(bytes, group, row);
        Ok(())
    } else {
        Err(Refusal::Value)
    }
}
