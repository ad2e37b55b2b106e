// RFC 9000 section 16: variable-length integers.
#![tactic(auto)]

ghost use Rattle.integers.specs.Answers.{ReadInteger};

use octets::refusal::Refusal;

// An integer that was read: its value, and the bytes it took.
#[derive(Clone, Copy, Debug, PartialEq, Eq)]
pub struct Integer {
    pub value: u64,
    pub taken: usize,
}

// The integer at the start of the bytes; those behind it are not looked at.
pub fn read_integer(bytes: &[u8]) -> Result<Integer, Refusal>
    ensures { ReadInteger bytes.now result }
{
    if bytes.len() < 1 {
        return Err(Refusal::NotWhole);
    }
    let taken = octets::power((bytes[0] / 64) as usize) as usize;
    if bytes.len() < taken {
        return Err(Refusal::NotWhole);
    }
    let form_and_value = octets::load(&bytes[..taken]);
    Ok(Integer {
        value: form_and_value % octets::power(8 * taken - 2),
        taken,
    })
}
