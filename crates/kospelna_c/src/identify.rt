// The identifier, both ways, and the named numbers.
ghost use Rattle.std.specs.Prelude.{◌≡◌};
ghost use Rattle.kospelna.specs.Identify.{parts_in, joining_out, splitting_out};
ghost use Rattle.identifier.specs.Answer.{join_of, part_of};
ghost use Rattle.identifier.specs.Named.{charger_address, vehicle_address, charger_version, vehicle_version};

use kospelna::identify::{FlatIdentifierJoining, FlatIdentifierParts, FlatIdentifierSplitting};

// The identifier of parts, or refusal 8.
#[unsafe(no_mangle)]
pub extern "C" fn kospelna_identifier_join(parts: FlatIdentifierParts) -> FlatIdentifierJoining
    ensures { result ≡ joining_out (join_of (parts_in parts)) }
{
    kospelna::identify::kospelna_identifier_join(parts)
}

// The parts of an identifier, or refusal 8.
#[unsafe(no_mangle)]
pub extern "C" fn kospelna_identifier_split(identifier: u32) -> FlatIdentifierSplitting
    ensures { result ≡ splitting_out (part_of identifier) }
{
    kospelna::identify::kospelna_identifier_split(identifier)
}

// The charger's address.
#[unsafe(no_mangle)]
pub extern "C" fn kospelna_charger_address() -> u32
    ensures { result ≡ charger_address }
{
    kospelna::identify::kospelna_charger_address()
}

// The vehicle's address.
#[unsafe(no_mangle)]
pub extern "C" fn kospelna_vehicle_address() -> u32
    ensures { result ≡ vehicle_address }
{
    kospelna::identify::kospelna_vehicle_address()
}

// The identifier of the charger's version message.
#[unsafe(no_mangle)]
pub extern "C" fn kospelna_charger_version_identifier() -> u32
    ensures { result ≡ charger_version }
{
    kospelna::identify::kospelna_charger_version_identifier()
}

// The identifier of the vehicle's version message.
#[unsafe(no_mangle)]
pub extern "C" fn kospelna_vehicle_version_identifier() -> u32
    ensures { result ≡ vehicle_version }
{
    kospelna::identify::kospelna_vehicle_version_identifier()
}
