// RFC 9000 section 17.2: what every long header begins with, read field by field in the order of docs/SCOPE.md, "Order of refusals".
#![tactic(auto)]

ghost use Rattle.std.specs.Prelude.{◌≡◌};
ghost use Rattle.versions.specs.Versions as Constants;
ghost use Rattle.versions.specs.Answers.{level_answer};
ghost use Rattle.header_long.specs.LongHeader.{only_level, only_retry, version_of, judged, long};
ghost use Rattle.header_long.specs.Answers.{takes, kind_of, judge_of, version_answer, judged_answer, long_answer};

use header_fields::{Place, id_at};
use octets::refusal::Refusal;
use versions::{is_known, level_of, retry_type};

// Which packets a reader takes, by their type: those of any level, of one level alone, or Retry.
// Kept: a closure is no plainer. Each reader would be generic over it, and its contract would speak of calls in place of `judge_of judge`.
#[derive(Clone, Copy, Debug, PartialEq, Eq)]
pub enum Types {
    Leveled,
    Level(u8),
    Retry,
}

// Who reads a long header: the one version that is taken, or none for every known one, and the types.
#[derive(Clone, Copy, Debug, PartialEq, Eq)]
pub struct Judge {
    pub only: Option<u32>,
    pub types: Types,
}

// A version that is taken, and what the reader takes the type for: a level, or Retry's type for itself.
// Kept: a number for both, as `LongHeader.antt:long` has it; why levels are numbers is said in `versions::level`.
#[derive(Clone, Copy)]
struct Judged {
    version: u32,
    kind: u8,
}

// What every long header begins with.
#[derive(Clone, Copy, Debug, PartialEq, Eq)]
pub struct Long {
    pub version: u32,
    pub kind: u8,
    pub destination: Place,
    pub source: Place,
}

// Whether a version is taken.
fn is_taken(only: Option<u32>, version: u32) -> bool
    ensures { result ≡ takes only version }
{
    only.is_none_or(|one| version == one)
}

// A level, where it is the one that is wanted.
fn only_level(wanted: u8, version: u32, kind: u8) -> Result<u8, Refusal>
    ensures { level_answer result ≡ only_level wanted (Constants.version version) kind }
{
    let level = level_of(version, kind)?;
    if level != wanted {
        return Err(Refusal::Type);
    }
    Ok(level)
}

// A type, where it is Retry's.
fn only_retry(version: u32, kind: u8) -> Result<u8, Refusal>
    ensures { level_answer result ≡ only_retry (Constants.version version) kind }
{
    if kind != retry_type(version) {
        return Err(Refusal::Type);
    }
    Ok(kind)
}

// What a type is taken for.
fn kind_of(types: Types, version: u32, kind: u8) -> Result<u8, Refusal>
    ensures { level_answer result ≡ kind_of types (Constants.version version) kind }
{
    match types {
        Types::Leveled => level_of(version, kind),
        Types::Level(wanted) => only_level(wanted, version, kind),
        Types::Retry => only_retry(version, kind),
    }
}

// The version behind the first byte.
fn read_version(datagram: &[u8]) -> Result<u32, Refusal>
    ensures { version_answer result ≡ version_of datagram.now }
{
    if datagram.len() < 5 {
        return Err(Refusal::NotWhole);
    }
    Ok(octets::word(datagram, 1))
}

// The version, where it is taken, and what the reader takes that version's type for.
fn judge_version(datagram: &[u8], judge: Judge) -> Result<Judged, Refusal>
    ensures { judged_answer result ≡ judged (judge_of judge) datagram.now }
{
    let version = read_version(datagram)?;
    if !is_known(version) {
        return Err(Refusal::Version);
    }
    if !is_taken(judge.only, version) {
        return Err(Refusal::Version);
    }
    let kind = kind_of(judge.types, version, datagram[0] / 16 % 4)?;
    Ok(Judged { version, kind })
}

// Section 17.2: what every long header begins with, behind a first byte that was judged, as far as the reader takes it.
pub fn read_long(datagram: &[u8], judge: Judge) -> Result<Long, Refusal>
    ensures { long_answer result ≡ long (judge_of judge) datagram.now }
{
    let judged = judge_version(datagram, judge)?;
    let destination = id_at(datagram, 5)?;
    let source = id_at(datagram, destination.at + destination.len)?;
    Ok(Long {
        version: judged.version,
        kind: judged.kind,
        destination,
        source,
    })
}
