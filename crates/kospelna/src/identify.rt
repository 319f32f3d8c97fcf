// The identifier, both ways, and the named numbers. One function for each that C calls.
ghost use Rattle.std.specs.Prelude.{◌≡◌};
ghost use Rattle.frame.specs.Result.{told_result};
ghost use Rattle.kospelna.specs.Identify.{parts_in, parts_out, joining_out, splitting_out};
ghost use Rattle.identifier.specs.Answer.{join_of, part_of};
ghost use Rattle.identifier.specs.Named.{charger_address, vehicle_address, charger_version, vehicle_version};

use crate::answers::refusal_and_value;
use frame::Refusal;
use identifier::Parts;

// These structs are the C interface: a refusal's number beside a value, a flag beside what goes out and numbers for cases are
// C's forms of Result, Option and enum.

// C's layout; a type of its own, so that the inner type may change.
#[repr(C)]
#[derive(Clone, Copy, Default)]
pub struct FlatIdentifierParts {
    pub p: u32,
    pub edp: u32,
    pub dp: u32,
    pub pf: u32,
    pub ps: u32,
    pub sa: u32,
}

// The refusal's number, 0 where there is none, and the identifier, 0 where refused.
#[repr(C)]
#[derive(Clone, Copy)]
pub struct FlatIdentifierJoining {
    pub refusal: u8,
    pub identifier: u32,
}

// The refusal's number, 0 where there is none, and the parts, zeros where refused.
#[repr(C)]
#[derive(Clone, Copy)]
pub struct FlatIdentifierSplitting {
    pub refusal: u8,
    pub parts: FlatIdentifierParts,
}

impl From<FlatIdentifierParts> for Parts {
    ghost from_gives = { λ flat parts. parts ≡ parts_in flat };

    fn from(f: FlatIdentifierParts) -> Parts {
        Parts {
            p: f.p,
            edp: f.edp,
            dp: f.dp,
            pf: f.pf,
            ps: f.ps,
            sa: f.sa,
        }
    }
}

impl From<Parts> for FlatIdentifierParts {
    ghost from_gives = { λ parts flat. flat ≡ parts_out parts };

    fn from(parts: Parts) -> FlatIdentifierParts {
        FlatIdentifierParts {
            p: parts.p,
            edp: parts.edp,
            dp: parts.dp,
            pf: parts.pf,
            ps: parts.ps,
            sa: parts.sa,
        }
    }
}

impl From<Result<u32, Refusal>> for FlatIdentifierJoining {
    ghost from_gives = { λ joined flat. flat ≡ joining_out (told_result joined) };

    fn from(joined: Result<u32, Refusal>) -> FlatIdentifierJoining {
        let (refusal, identifier) = refusal_and_value(joined);
        FlatIdentifierJoining {
            refusal,
            identifier,
        }
    }
}

impl From<Result<Parts, Refusal>> for FlatIdentifierSplitting {
    ghost from_gives = { λ parted flat. flat ≡ splitting_out (told_result parted) };

    fn from(parted: Result<Parts, Refusal>) -> FlatIdentifierSplitting {
        let (refusal, parts) = refusal_and_value(parted);
        FlatIdentifierSplitting { refusal, parts }
    }
}

// The identifier of parts, or refusal 8.
pub fn kospelna_identifier_join(parts: FlatIdentifierParts) -> FlatIdentifierJoining
    ensures { result ≡ joining_out (join_of (parts_in parts)) }
{
    identifier::join(parts.into()).into()
}

// The parts of an identifier, or refusal 8.
pub fn kospelna_identifier_split(identifier: u32) -> FlatIdentifierSplitting
    ensures { result ≡ splitting_out (part_of identifier) }
{
    identifier::part(identifier).into()
}

// The charger's address.
pub fn kospelna_charger_address() -> u32
    ensures { result ≡ charger_address }
{
    identifier::charger_address()
}

// The vehicle's address.
pub fn kospelna_vehicle_address() -> u32
    ensures { result ≡ vehicle_address }
{
    identifier::vehicle_address()
}

// The identifier of the charger's version message.
pub fn kospelna_charger_version_identifier() -> u32
    ensures { result ≡ charger_version }
{
    identifier::charger_version()
}

// The identifier of the vehicle's version message.
pub fn kospelna_vehicle_version_identifier() -> u32
    ensures { result ≡ vehicle_version }
{
    identifier::vehicle_version()
}
