// RFC 9001 section 5: one sender's keys. Those of Initial packets come of the client's Destination Connection ID, and those of other
// levels of a secret that TLS hands over.
#![tactic(auto)]

ghost use Rattle.std.specs.Prelude.{◌≡◌, ◌≤◌, length};
ghost use Rattle.header_fields.specs.Fields.{longest_id};
ghost use Rattle.keys.specs.InitialKeys.{side_secret};
ghost use Rattle.keys.specs.InstalledKeys as Section51;
ghost use Rattle.keys.specs.Answers.{side_of, InitialKeysMade, KeysInstalled};

use header_fields::LONGEST_ID;
use keys_expansion::keys_from;
use octets::refusal::Refusal;
use protection::Keys;
use versions::level;

// The levels whose keys are installed, as whole numbers: no last byte of a larger one is taken for a level.
const ZERO_RTT: u32 = level::ZERO_RTT as u32;

const HANDSHAKE: u32 = level::HANDSHAKE as u32;

// Whose packets the keys protect.
#[derive(Clone, Copy, Debug, PartialEq, Eq)]
pub enum Side {
    Client,
    Server,
}

// Section 5.2: the secret of one side.
fn secret_of(number: u32, destination: &[u8], side: Side) -> [u8; 32]
    requires { length destination.now ≤ longest_id }
    ensures { result ≡ side_secret number destination.now (side_of side) }
{
    let salt = versions::salt(number);
    let initial = hkdf::extract(&salt, destination);
    let mut secret = [0u8; 32];
    match side {
        Side::Client => hkdf::expand_label(&initial, b"client in", &mut secret),
        Side::Server => hkdf::expand_label(&initial, b"server in", &mut secret),
    }
    secret
}

// Section 5.2: one side's Initial keys, from the Destination Connection ID of the client's Initial.
pub fn initial_keys(number: u32, destination: &[u8], side: Side) -> Result<Keys, Refusal>
    ensures { InitialKeysMade number destination.now side result }
{
    if !versions::is_known(number) {
        return Err(Refusal::Version);
    }
    if LONGEST_ID < destination.len() {
        return Err(Refusal::LongId);
    }
    let secret = secret_of(number, destination, side);
    Ok(keys_from(number, level::INITIAL, &secret))
}

// Whether keys of a level are installed for a sender. Initial keys never are, and a server sends no 0-RTT packets (RFC 9000 section
// 17.2.3).
fn installs(level: u32, sender: Side) -> bool
    ensures { result ≡ Section51.installs level (side_of sender) }
{
    match sender {
        Side::Client => level == ZERO_RTT || level == HANDSHAKE,
        Side::Server => level == HANDSHAKE,
    }
}

// Section 5.1: one sender's keys of a level, from its secret there.
// Kept: the level is a number, not an enum: the C interface (dw_install_keys) may pass any.
pub fn install_keys(
    number: u32,
    level: u32,
    sender: Side,
    secret: &[u8; 32],
) -> Result<Keys, Refusal>
    ensures { KeysInstalled number level sender secret.now result }
{
    if !versions::is_known(number) {
        return Err(Refusal::Version);
    }
    if !installs(level, sender) {
        return Err(Refusal::Type);
    }
    Ok(keys_from(number, level as u8, secret))
}
