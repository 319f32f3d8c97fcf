// The 29-bit identifier of a frame on the bus: from its parts, and back to them.
#![tactic(auto)]

ghost use Rattle.std.specs.Prelude.{◌≡◌};
ghost use Rattle.identifier.specs.Identifier.{Within, fits_of, number_of, parts_of};
ghost use Rattle.frame.specs.Result.{told_result};
ghost use Rattle.identifier.specs.Answer.{join_of, parts_fit, part_of};
ghost use Rattle.identifier.specs.Named.{
  charger_address,
  vehicle_address,
  charger_version,
  vehicle_version,
};

use frame::Refusal;

// The addresses of the two ends: the charger's and the vehicle's.
pub const SECC: u32 = 0x56;

pub const EVCC: u32 = 0xF4;

// The identifiers of the two version messages: the charger's to the vehicle, and the vehicle's to
// the charger.
pub const CHARGER_VERSION: u32 = 0x0C38F456;

pub const VEHICLE_VERSION: u32 = 0x0C3656F4;

// The parts, the first in the highest bits. Each is held wider than its place, so that one over its
// width can be refused.
#[derive(Clone, Copy)]
pub struct Parts {
    pub p: u32,
    pub edp: u32,
    pub dp: u32,
    pub pf: u32,
    pub ps: u32,
    pub sa: u32,
}

// Every part is inside its width, and EDP and DP are 0.
#[tactic(auto, unfolding(crate::specs::Identifier::fits_of))]
fn fits(parts: Parts) -> bool
    ensures { result ≡ fits_of parts }
{
    let p = parts.p < 8;
    let edp = parts.edp == 0;
    let dp = parts.dp == 0;
    let pf = parts.pf < 256;
    let ps = parts.ps < 256;
    let sa = parts.sa < 256;
    p & edp & dp & pf & ps & sa
}

// The number whose bits are those of the parts, one part after the other. By arithmetic: the library joins whole bytes alone.
#[tactic(auto, unfolding(crate::specs::Identifier::number_of))]
fn number_of(parts: Parts) -> u32
    requires { Within parts }
    ensures { result ≡ number_of parts }
{
    let high = (parts.p * 2 + parts.edp) * 2 + parts.dp;
    ((high * 256 + parts.pf) * 256 + parts.ps) * 256 + parts.sa
}

// The identifier of parts, or refusal 8.
#[tactic(auto, using(crate::proofs::Laws::within), unfolding(crate::specs::Answer::join_of, frame::specs::Choice::pick))]
pub fn join(parts: Parts) -> Result<u32, Refusal>
    ensures { told_result result ≡ join_of parts }
{
    if fits(parts) {
        Ok(number_of(parts))
    } else {
        Err(Refusal::Identifier)
    }
}

// The bits of each part, by arithmetic too: three of the parts are no whole bytes.
#[tactic(auto, unfolding(crate::specs::Identifier::parts_of))]
fn parts_of(identifier: u32) -> Parts
    ensures { result ≡ parts_of identifier }
{
    Parts {
        p: identifier / 67108864,
        edp: identifier / 33554432 % 2,
        dp: identifier / 16777216 % 2,
        pf: identifier / 65536 % 256,
        ps: identifier / 256 % 256,
        sa: identifier % 256,
    }
}

// The parts of an identifier fit: it has 29 bits, and those of EDP and DP are 0.
#[tactic(auto, using(crate::proofs::Laws::fits_at_once))]
fn parts_fit(identifier: u32) -> bool
    ensures { result ≡ parts_fit identifier }
{
    (identifier < 536870912) & (identifier / 16777216 % 4 == 0)
}

// The parts of an identifier, or refusal 8.
#[tactic(auto, unfolding(crate::specs::Answer::part_of, frame::specs::Choice::pick))]
pub fn part(identifier: u32) -> Result<Parts, Refusal>
    ensures { told_result result ≡ part_of identifier }
{
    if parts_fit(identifier) {
        Ok(parts_of(identifier))
    } else {
        Err(Refusal::Identifier)
    }
}

// The named numbers, for whoever goes by promises: a function for each, as C has them.
pub fn charger_address() -> u32
    ensures { result ≡ charger_address }
{
    SECC
}

pub fn vehicle_address() -> u32
    ensures { result ≡ vehicle_address }
{
    EVCC
}

pub fn charger_version() -> u32
    ensures { result ≡ charger_version }
{
    CHARGER_VERSION
}

pub fn vehicle_version() -> u32
    ensures { result ≡ vehicle_version }
{
    VEHICLE_VERSION
}
