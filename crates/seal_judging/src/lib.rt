// Sealing, as far as nothing is written: what is asked is judged in the order of docs/SCOPE.md, "Order of refusals".
#![tactic(auto)]

ghost use Rattle.std.specs.Prelude.{◌≡◌, ◌+◌, ◌≤◌, length};
ghost use Rattle.octets.specs.Octets.{length_given};
ghost use Rattle.numbers_shortening.specs.Answers.{acknowledged_of};
ghost use Rattle.header_fields.specs.Fields.{longest_id};
ghost use Rattle.header_forms.specs.Rules.{in_force};
ghost use Rattle.header_writing.specs.Answers.{plain_of};
ghost use Rattle.protection.specs.KeyRecord.{keys_of};
ghost use Rattle.packets.specs.Packet.{sealed};
ghost use Rattle.packets.specs.Sealable.{size_of};
ghost use Rattle.protection.specs.AesGcm.{aes_gcm};
ghost use Rattle.seal_judging.specs.Judging.{sealing_answer, held_of, sized};

use header_fields::{LONGEST_ID, TAG_LENGTH};
use header_forms::LIMIT;
use header_writing::{Plain, is_written_by};
use numbers::FullPn;
use numbers_shortening::shorten;
use octets::refusal::Refusal;
use protection::Keys;

// How long a token is, as far as the packet has a field for it.
fn held(token: Option<&[u8]>) -> usize
    ensures { result ≡ held_of token.entry }
{
    token.map_or(0, |token| token.len())
}

// How long the packet is, where no part of it is over the limit.
fn size_of(plain: Plain) -> usize
    requires { (plain.number_length ≤ 4) × (length plain.destination.now ≤ in_force.limit) × (length plain.source.now ≤ in_force.limit) × (held_of plain.token ≤ in_force.limit) × (length plain.payload.now ≤ in_force.limit) }
    ensures { result ≡ size_of in_force (plain_of plain.entry) }
{
    let counted = plain.number_length + plain.payload.len() + TAG_LENGTH;
    7 + plain.destination.len()
        + plain.source.len()
        + header_writing::token_form(plain.token)
        + header_writing::length_form(counted)
        + counted
}

// Whether the packet is over the limit, or over the room for it; its length, where it is neither.
fn judge_size(plain: Plain, room: usize) -> Result<usize, Refusal>
    requires { (plain.number_length ≤ 4) × (length plain.destination.now ≤ longest_id) × (length plain.source.now ≤ longest_id) }
    ensures { sealing_answer result ≡ sized (size_of in_force (plain_of plain.entry)) room }
{
    let token = held(plain.token);
    if LIMIT < token {
        return Err(Refusal::Size);
    }
    if LIMIT < plain.payload.len() {
        return Err(Refusal::Size);
    }
    let size = size_of(plain);
    if LIMIT < size {
        return Err(Refusal::Size);
    }
    if room < size {
        return Err(Refusal::Room);
    }
    Ok(size)
}

// What sealing into a room of that many bytes answers, the packet's length where it isn't refused; no buffer is at hand to be written.
pub fn judge(
    keys: Keys,
    acknowledged: Option<FullPn>,
    plain: Plain,
    room: usize,
) -> Result<usize, Refusal>
    ensures { sealing_answer result ≡ length_given (sealed aes_gcm in_force (keys_of keys) (acknowledged_of acknowledged) (plain_of plain.entry) room) }
{
    if !versions::is_known(keys.version) {
        return Err(Refusal::Version);
    }
    if !is_written_by(plain.token, keys.level) {
        return Err(Refusal::Type);
    }
    let count = plain.number_length;
    shorten(plain.number, acknowledged, count)?;
    if LONGEST_ID < plain.destination.len() {
        return Err(Refusal::LongId);
    }
    if LONGEST_ID < plain.source.len() {
        return Err(Refusal::LongId);
    }
    if count + plain.payload.len() < 4 {
        return Err(Refusal::Short);
    }
    judge_size(plain, room)
}
