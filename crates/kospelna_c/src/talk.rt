// The version list, the version message and the talker of either side.
ghost use Rattle.std.specs.Prelude.{◌≡◌};
ghost use Rattle.kospelna.specs.Talk.{side_in, versions_in, listing_out, bytes_in, message_bytes, writing_out, reading_out, talker_in, making_out, answer_out};
ghost use Rattle.version.specs.List.{list_of};
ghost use Rattle.version.specs.Message.{read_of};
ghost use Rattle.version.specs.Talk.{make_of, connect_of, tick_of, hear_of, stop_of, greet_of, functions_heard_of};

use kospelna::talk::{
    FlatTalker, FlatTalkerAnswer, FlatTalkerMade, FlatVersionBytes, FlatVersionListing,
    FlatVersionMessage, FlatVersionReading, FlatVersionWriting, FlatVersions,
};

// A list of 1 to 8 strictly rising versions, three bytes for each, or refusal 11.
#[unsafe(no_mangle)]
pub extern "C" fn kospelna_version_list(bytes: &[u8]) -> FlatVersionListing
    ensures { result ≡ listing_out (list_of bytes.now) }
{
    kospelna::talk::kospelna_version_list(bytes)
}

// The bytes of a message, or refusal 10.
#[unsafe(no_mangle)]
pub extern "C" fn kospelna_version_message_write(message: FlatVersionMessage) -> FlatVersionWriting
    ensures { result ≡ writing_out (message_bytes message) }
{
    kospelna::talk::kospelna_version_message_write(message)
}

// The message of eight bytes, or refusal 10.
#[unsafe(no_mangle)]
pub extern "C" fn kospelna_version_message_read(bytes: FlatVersionBytes) -> FlatVersionReading
    ensures { result ≡ reading_out (read_of (bytes_in bytes)) }
{
    kospelna::talk::kospelna_version_message_read(bytes)
}

// A talker in S0, Ns at the highest version, the result continue; or refusal 11.
#[unsafe(no_mangle)]
pub extern "C" fn kospelna_talker_make(
    side: u8,
    versions: FlatVersions,
    control: u8,
) -> FlatTalkerMade
    ensures { result ≡ making_out (make_of (side_in side) (versions_in versions) control) }
{
    kospelna::talk::kospelna_talker_make(side, versions, control)
}

// The physical connection is complete.
#[unsafe(no_mangle)]
pub extern "C" fn kospelna_talker_connect(talker: FlatTalker) -> FlatTalkerAnswer
    ensures { result ≡ answer_out (connect_of (talker_in talker)) }
{
    kospelna::talk::kospelna_talker_connect(talker)
}

// One millisecond passes.
#[unsafe(no_mangle)]
pub extern "C" fn kospelna_talker_tick(talker: FlatTalker) -> FlatTalkerAnswer
    ensures { result ≡ answer_out (tick_of (talker_in talker)) }
{
    kospelna::talk::kospelna_talker_tick(talker)
}

// A message of the other side is heard.
#[unsafe(no_mangle)]
pub extern "C" fn kospelna_talker_hear(
    talker: FlatTalker,
    bytes: FlatVersionBytes,
) -> FlatTalkerAnswer
    ensures { result ≡ answer_out (hear_of (talker_in talker) (bytes_in bytes)) }
{
    kospelna::talk::kospelna_talker_hear(talker, bytes)
}

// A fault, or the other side opens its switch.
#[unsafe(no_mangle)]
pub extern "C" fn kospelna_talker_stop(talker: FlatTalker) -> FlatTalkerAnswer
    ensures { result ≡ answer_out (stop_of (talker_in talker)) }
{
    kospelna::talk::kospelna_talker_stop(talker)
}

// The old protocol's greeting (CHM) is heard.
#[unsafe(no_mangle)]
pub extern "C" fn kospelna_talker_greet(talker: FlatTalker) -> FlatTalkerAnswer
    ensures { result ≡ answer_out (greet_of (talker_in talker)) }
{
    kospelna::talk::kospelna_talker_greet(talker)
}

// The charger's supported functions are heard.
#[unsafe(no_mangle)]
pub extern "C" fn kospelna_talker_functions_heard(talker: FlatTalker) -> FlatTalkerAnswer
    ensures { result ≡ answer_out (functions_heard_of (talker_in talker)) }
{
    kospelna::talk::kospelna_talker_functions_heard(talker)
}
