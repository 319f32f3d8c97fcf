// The parameter groups: read, written, and looked up.
ghost use Rattle.std.specs.Prelude.{◌≡◌};
ghost use Rattle.kospelna.specs.Group.{group_in, reading_out, written, written_out, finding_out};
ghost use Rattle.groups.specs.Reading.{read_of};
ghost use Rattle.groups.specs.Table.{find_of};
ghost use Rattle.groups.specs.Writing.{write_of};

use kospelna::group::{FlatGroup, FlatGroupFinding, FlatGroupReading, FlatGroupWriting};

// The group in eight lent bytes: refusal 9 for the length, the code and the filler, then 10 for a
// value.
#[unsafe(no_mangle)]
pub extern "C" fn kospelna_group_read(bytes: &[u8]) -> FlatGroupReading
    ensures { result ≡ reading_out (read_of bytes.now) }
{
    kospelna::group::kospelna_group_read(bytes)
}

// A group into eight lent bytes: refusal 9 for the length and the code, then 10 for a value; a
// refusal leaves the bytes.
#[unsafe(no_mangle)]
pub extern "C" fn kospelna_group_write(group: FlatGroup, bytes: &mut [u8]) -> FlatGroupWriting
    ensures { written result bytes.new ≡ written_out (write_of (group_in group) bytes.old) }
{
    kospelna::group::kospelna_group_write(group, bytes)
}

// The row of a code in the table of groups, or refusal 9.
#[unsafe(no_mangle)]
pub extern "C" fn kospelna_group_find(code: u8) -> FlatGroupFinding
    ensures { result ≡ finding_out (find_of code) }
{
    kospelna::group::kospelna_group_find(code)
}
