// The version list, the version message and the talker of either side. One function for each that C calls; a side, a state and a
// result are numbers, as C passes them.
ghost use Rattle.std.specs.Prelude.{◌≡◌};
ghost use Rattle.frame.specs.Result.{told_result};
ghost use Rattle.kospelna.specs.Talk.{
  side_in,
  state_in,
  verdict_in,
  versions_in,
  versions_out,
  listing_out,
  message_in,
  message_out,
  bytes_in,
  bytes_out,
  message_bytes,
  writing_out,
  reading_out,
  talker_in,
  talker_out,
  making_out,
  outcome_number,
  outcome_refusal,
  outcome_version,
  answer_out,
};
ghost use Rattle.version.specs.List.{list_of};
ghost use Rattle.version.specs.Message.{read_of};
ghost use Rattle.version.specs.Talk.{
  make_of,
  connect_of,
  tick_of,
  hear_of,
  stop_of,
  greet_of,
  functions_heard_of,
};
ghost use Rattle.version.specs.Told.{bytes_or_zeros, told_outcome, told};

use crate::answers::refusal_and_value;
use frame::Refusal;
use version::{Answer, Message, Outcome, Side, State, Talker, Verdict, Versions};

// These structs are the C interface: a refusal's number beside a value, a flag beside what goes out and numbers for cases are
// C's forms of Result, Option and enum.

// C's layout; a type of its own, so that the inner type may change.
#[repr(C)]
#[derive(Clone, Copy, Default)]
pub struct FlatVersions {
    pub count: u32,
    pub numbers: [u32; 8],
}

// The refusal's number, 0 where there is none, and the list, of no versions where refused.
#[repr(C)]
#[derive(Clone, Copy)]
pub struct FlatVersionListing {
    pub refusal: u8,
    pub versions: FlatVersions,
}

// Verdict 0 is continue, 1 success, 2 failure.
#[repr(C)]
#[derive(Clone, Copy, Default)]
pub struct FlatVersionMessage {
    pub verdict: u8,
    pub version: u32,
    pub control: u8,
}

// The eight bytes of a message.
#[repr(C)]
#[derive(Clone, Copy, Default)]
pub struct FlatVersionBytes {
    pub bytes: [u8; 8],
}

// The refusal's number, 0 where there is none, and the bytes, zeros where refused.
#[repr(C)]
#[derive(Clone, Copy)]
pub struct FlatVersionWriting {
    pub refusal: u8,
    pub bytes: FlatVersionBytes,
}

// The refusal's number, 0 where there is none, and the message, zeros where refused.
#[repr(C)]
#[derive(Clone, Copy)]
pub struct FlatVersionReading {
    pub refusal: u8,
    pub message: FlatVersionMessage,
}

// Side 0 is the charger, 1 the vehicle; state 0 to 5 is S0 to S5; verdict as above. Any other
// number is read as 0.
#[repr(C)]
#[derive(Clone, Copy, Default)]
pub struct FlatTalker {
    pub side: u8,
    pub versions: FlatVersions,
    pub control: u8,
    pub state: u8,
    pub place: u32,
    pub verdict: u8,
    pub period: u16,
    pub age: u16,
    pub timing: bool,
}

// What making answers: the refusal's number, 0 where there is none, and the talker, zeros where
// refused.
#[repr(C)]
#[derive(Clone, Copy)]
pub struct FlatTalkerMade {
    pub refusal: u8,
    pub talker: FlatTalker,
}

// Outcome 0: quiet; 1: refused, with the refusal's number; 3: failed; 6: agreed, with the version;
// 7: left. What an outcome has not is 0. Where emits is false, bytes are eight zeros.
#[repr(C)]
#[derive(Clone, Copy)]
pub struct FlatTalkerAnswer {
    pub next: FlatTalker,
    pub emits: bool,
    pub bytes: FlatVersionBytes,
    pub outcome: u8,
    pub refusal: u8,
    pub version: u32,
}

// An outcome's numbers, as FlatTalkerAnswer has them.
#[derive(Clone, Copy, Default)]
pub(crate) struct Report {
    pub outcome: u8,
    pub refusal: u8,
    pub version: u32,
}

// These three are functions, not From: neither of their types is this crate's.
#[tactic(auto, unfolding(frame::specs::Choice::pick))]
fn side_from(number: u8) -> Side
    ensures { result ≡ side_in number }
{
    match number {
        1 => Side::Vehicle,
        _ => Side::Charger,
    }
}

#[tactic(auto, unfolding(frame::specs::Choice::pick))]
fn state_from(number: u8) -> State
    ensures { result ≡ state_in number }
{
    match number {
        1 => State::S1,
        2 => State::S2,
        3 => State::S3,
        4 => State::S4,
        5 => State::S5,
        _ => State::S0,
    }
}

// Unlike `TryFrom`, it reads an unknown number as continue.
#[tactic(auto, unfolding(frame::specs::Choice::pick, version::specs::Message::verdict_of, version::specs::Message::verdict_read))]
fn verdict_from(number: u8) -> Verdict
    ensures { result ≡ verdict_in number }
{
    Verdict::try_from(number).unwrap_or(Verdict::Continue)
}

impl From<FlatVersions> for Versions {
    ghost from_gives = { λ flat versions. versions ≡ versions_in flat };

    fn from(f: FlatVersions) -> Versions {
        let numbers = f.numbers;
        Versions {
            count: f.count,
            numbers,
        }
    }
}

impl From<Versions> for FlatVersions {
    ghost from_gives = { λ versions flat. flat ≡ versions_out versions };

    fn from(versions: Versions) -> FlatVersions {
        let numbers = versions.numbers;
        FlatVersions {
            count: versions.count,
            numbers,
        }
    }
}

impl From<Result<Versions, Refusal>> for FlatVersionListing {
    ghost from_gives = { λ listed flat. flat ≡ listing_out (told_result listed) };

    fn from(listed: Result<Versions, Refusal>) -> FlatVersionListing {
        let (refusal, versions) = refusal_and_value(listed);
        FlatVersionListing { refusal, versions }
    }
}

impl From<FlatVersionMessage> for Message {
    ghost from_gives = { λ flat message. message ≡ message_in flat };

    fn from(f: FlatVersionMessage) -> Message {
        Message {
            verdict: verdict_from(f.verdict),
            version: f.version,
            control: f.control,
        }
    }
}

impl From<Message> for FlatVersionMessage {
    ghost from_gives = { λ message flat. flat ≡ message_out message };

    fn from(m: Message) -> FlatVersionMessage {
        FlatVersionMessage {
            verdict: m.verdict.into(),
            version: m.version,
            control: m.control,
        }
    }
}

impl From<[u8; 8]> for FlatVersionBytes {
    ghost from_gives = { λ bytes flat. flat ≡ bytes_out bytes };

    fn from(bytes: [u8; 8]) -> FlatVersionBytes {
        FlatVersionBytes { bytes }
    }
}

// Zeros where no message goes out.
impl From<Option<[u8; 8]>> for FlatVersionBytes {
    ghost from_gives = { λ message flat. flat ≡ bytes_out (bytes_or_zeros message) };

    fn from(message: Option<[u8; 8]>) -> FlatVersionBytes {
        let bytes = message.unwrap_or([0; 8]);
        FlatVersionBytes { bytes }
    }
}

impl From<Result<[u8; 8], Refusal>> for FlatVersionWriting {
    ghost from_gives = { λ written flat. flat ≡ writing_out (told_result written) };

    fn from(written: Result<[u8; 8], Refusal>) -> FlatVersionWriting {
        let (refusal, bytes) = refusal_and_value(written);
        FlatVersionWriting { refusal, bytes }
    }
}

impl From<Result<Message, Refusal>> for FlatVersionReading {
    ghost from_gives = { λ reading flat. flat ≡ reading_out (told_result reading) };

    fn from(reading: Result<Message, Refusal>) -> FlatVersionReading {
        let (refusal, message) = refusal_and_value(reading);
        FlatVersionReading { refusal, message }
    }
}

impl From<FlatTalker> for Talker {
    ghost from_gives = { λ flat talker. talker ≡ talker_in flat };

    fn from(f: FlatTalker) -> Talker {
        Talker {
            side: side_from(f.side),
            versions: f.versions.into(),
            control: f.control,
            state: state_from(f.state),
            place: f.place,
            verdict: verdict_from(f.verdict),
            period: f.period,
            age: f.age,
            timing: f.timing,
        }
    }
}

impl From<Talker> for FlatTalker {
    ghost from_gives = { λ talker flat. flat ≡ talker_out talker };

    fn from(t: Talker) -> FlatTalker {
        FlatTalker {
            side: t.side as u8,
            versions: t.versions.into(),
            control: t.control,
            state: t.state as u8,
            place: t.place,
            verdict: t.verdict.into(),
            period: t.period,
            age: t.age,
            timing: t.timing,
        }
    }
}

impl From<Result<Talker, Refusal>> for FlatTalkerMade {
    ghost from_gives = { λ made flat. flat ≡ making_out (told_result made) };

    fn from(made: Result<Talker, Refusal>) -> FlatTalkerMade {
        let (refusal, talker) = refusal_and_value(made);
        FlatTalkerMade { refusal, talker }
    }
}

impl From<Outcome> for Report {
    ghost from_gives = { λ outcome report.
        (report.outcome ≡ outcome_number (told_outcome outcome))
        × (report.refusal ≡ outcome_refusal (told_outcome outcome))
        × (report.version ≡ outcome_version (told_outcome outcome)) };

    fn from(outcome: Outcome) -> Report {
        let none = Report::default();
        match outcome {
            Outcome::Quiet => none,
            Outcome::Refused(refusal) => Report {
                outcome: 1,
                refusal: refusal.into(),
                ..none
            },
            Outcome::Agreed(version) => Report {
                outcome: 6,
                version,
                ..none
            },
            Outcome::Failed => Report { outcome: 3, ..none },
            Outcome::Left => Report { outcome: 7, ..none },
        }
    }
}

impl From<Answer> for FlatTalkerAnswer {
    ghost from_gives = { λ answer flat. flat ≡ answer_out (told answer) };

    fn from(a: Answer) -> FlatTalkerAnswer {
        let report = Report::from(a.outcome);
        FlatTalkerAnswer {
            next: a.next.into(),
            emits: a.message.is_some(),
            bytes: a.message.into(),
            outcome: report.outcome,
            refusal: report.refusal,
            version: report.version,
        }
    }
}

// A list of 1 to 8 strictly rising versions, three bytes for each, or refusal 11.
pub fn kospelna_version_list(bytes: &[u8]) -> FlatVersionListing
    ensures { result ≡ listing_out (list_of bytes.now) }
{
    version::list::list(bytes).into()
}

// A message's bytes, where its result is one of the three.
#[tactic(auto, unfolding(frame::specs::Choice::pick, version::specs::Message::verdict_read))]
fn written(message: FlatVersionMessage) -> Result<[u8; 8], Refusal>
    ensures { told_result result ≡ message_bytes message }
{
    Verdict::try_from(message.verdict)?;
    Ok(version::wire::write(message.into()))
}

// The bytes of a message, or refusal 10.
pub fn kospelna_version_message_write(message: FlatVersionMessage) -> FlatVersionWriting
    ensures { result ≡ writing_out (message_bytes message) }
{
    written(message).into()
}

// The message of eight bytes, or refusal 10.
pub fn kospelna_version_message_read(bytes: FlatVersionBytes) -> FlatVersionReading
    ensures { result ≡ reading_out (read_of (bytes_in bytes)) }
{
    version::wire::read(bytes.bytes).into()
}

// A talker in S0, Ns at the highest version, the result continue; or refusal 11.
pub fn kospelna_talker_make(side: u8, versions: FlatVersions, control: u8) -> FlatTalkerMade
    ensures { result ≡ making_out (make_of (side_in side) (versions_in versions) control) }
{
    Talker::make(side_from(side), versions.into(), control).into()
}

// The physical connection is complete.
pub fn kospelna_talker_connect(talker: FlatTalker) -> FlatTalkerAnswer
    ensures { result ≡ answer_out (connect_of (talker_in talker)) }
{
    Talker::from(talker).connect().into()
}

// One millisecond passes.
pub fn kospelna_talker_tick(talker: FlatTalker) -> FlatTalkerAnswer
    ensures { result ≡ answer_out (tick_of (talker_in talker)) }
{
    Talker::from(talker).tick().into()
}

// A message of the other side is heard.
pub fn kospelna_talker_hear(talker: FlatTalker, bytes: FlatVersionBytes) -> FlatTalkerAnswer
    ensures { result ≡ answer_out (hear_of (talker_in talker) (bytes_in bytes)) }
{
    Talker::from(talker).hear(bytes.bytes).into()
}

// A fault, or the other side opens its switch.
pub fn kospelna_talker_stop(talker: FlatTalker) -> FlatTalkerAnswer
    ensures { result ≡ answer_out (stop_of (talker_in talker)) }
{
    Talker::from(talker).stop().into()
}

// The old protocol's greeting (CHM) is heard.
pub fn kospelna_talker_greet(talker: FlatTalker) -> FlatTalkerAnswer
    ensures { result ≡ answer_out (greet_of (talker_in talker)) }
{
    Talker::from(talker).greet().into()
}

// The charger's supported functions are heard.
pub fn kospelna_talker_functions_heard(talker: FlatTalker) -> FlatTalkerAnswer
    ensures { result ≡ answer_out (functions_heard_of (talker_in talker)) }
{
    Talker::from(talker).functions_heard().into()
}
