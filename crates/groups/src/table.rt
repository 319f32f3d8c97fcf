// The two tables, and looking up a kind. They are a `static` each: a `const` that is indexed would be written to the stack at
// each call.
ghost use Rattle.std.specs.Prelude.{◌≡◌, ◌≤◌};
ghost use Rattle.groups.specs.Table.{pause, kind_at};

use crate::Sender::{Charger, Vehicle};
use crate::Width::{Byte, Word};
use crate::{Kind, Row, Width};

// The numbers of the kinds of fields, which are their places in the table. Where a group has no field the number is 0.
const ABSENT: usize = 0;

const READY: usize = 1;

const VOLTAGE: usize = 2;

const CURRENT: usize = 3;

const MODE: usize = 4;

const CHARGE: usize = 5;

const MINUTES: usize = 6;

const REASON: usize = 7;

const CELL: usize = 8;

const TEMP: usize = 9;

const PAUSE: usize = 10;

// The kinds of fields. Where there is no field, there is no byte, and the value is 0. Where a kind has no mark, or one, its
// lowest value stands for the others.
#[rattlefmt::skip]
static KINDS: [Kind; 11] = [
    Kind { width: Width::None, low: 0, high: 0, mark: 0, other: 0 }, // ABSENT
    Kind { width: Byte, low: 0, high: 1, mark: 0, other: 0 }, // READY
    Kind { width: Word, low: 0, high: 65000, mark: 0, other: 0 }, // VOLTAGE
    Kind { width: Word, low: 0, high: 65000, mark: 0, other: 0 }, // CURRENT
    Kind { width: Byte, low: 1, high: 2, mark: 1, other: 1 }, // MODE
    Kind { width: Word, low: 0, high: 1000, mark: 0, other: 0 }, // CHARGE
    Kind { width: Word, low: 0, high: 65000, mark: 0, other: 0 }, // MINUTES
    Kind { width: Byte, low: 0, high: 2, mark: 0xFF, other: 0 }, // REASON
    Kind { width: Word, low: 0, high: 65000, mark: 0xFFFE, other: 0xFFFF }, // CELL
    Kind { width: Byte, low: 0, high: 250, mark: 0xFE, other: 0xFF }, // TEMP
    Kind { width: Byte, low: 0, high: 0, mark: 0xAA, other: 0 }, // PAUSE
];

// The groups.
#[rattlefmt::skip]
pub(crate) static GROUPS: [Row; 9] = [
    Row { code: 0x71, length: 2, sender: Charger, reliable: false, first: READY, second: ABSENT, third: ABSENT, fourth: ABSENT },
    Row { code: 0x72, length: 4, sender: Vehicle, reliable: false, first: READY, second: VOLTAGE, third: ABSENT, fourth: ABSENT },
    Row { code: 0x73, length: 6, sender: Vehicle, reliable: false, first: VOLTAGE, second: CURRENT, third: MODE, fourth: ABSENT },
    Row { code: 0x74, length: 5, sender: Vehicle, reliable: false, first: CHARGE, second: MINUTES, third: ABSENT, fourth: ABSENT },
    Row { code: 0x75, length: 4, sender: Charger, reliable: false, first: CURRENT, second: REASON, third: ABSENT, fourth: ABSENT },
    Row { code: 0x76, length: 5, sender: Charger, reliable: false, first: VOLTAGE, second: CURRENT, third: ABSENT, fourth: ABSENT },
    Row { code: 0x77, length: 7, sender: Vehicle, reliable: false, first: CELL, second: CELL, third: TEMP, fourth: TEMP },
    Row { code: 0x78, length: 2, sender: Charger, reliable: true, first: PAUSE, second: ABSENT, third: ABSENT, fourth: ABSENT },
    Row { code: 0x79, length: 2, sender: Vehicle, reliable: true, first: PAUSE, second: ABSENT, third: ABSENT, fourth: ABSENT },
];

// The kind with a number. No row has a number above the last, so that no place is tested when it runs.
#[tactic(auto, using(crate::proofs::Tables::kind_found), unfolding(crate::specs::Table::kinds))]
pub(crate) fn kind_at(number: usize) -> Kind
    requires { number ≤ pause }
    ensures { result ≡ kind_at number }
{
    KINDS[number]
}
