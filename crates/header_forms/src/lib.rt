// The first byte, by the form of the header: RFC 9000 section 17.2, and RFC 9001 section 5.4.1 for what is masked of it.
#![tactic(auto)]

ghost use Rattle.std.specs.Prelude.{◌≡◌, ◌^◌};
ghost use Rattle.header_forms.specs.Rules.{in_force};
ghost use Rattle.header_forms.specs.Forms.{masked_first, reserved_bits, formed};
ghost use Rattle.header_forms.specs.Answers.{form_of, formed_answer};

use octets::refusal::Refusal;

// The largest datagram, and the largest packet that is written.
pub const LIMIT: usize = 1500;

// The forms of header.
#[derive(Clone, Copy, Debug, PartialEq, Eq)]
pub enum Form {
    Long,
}

// The form bit and the fixed bit, as a number.
fn top_bits(form: Form) -> u8
    ensures { result ≡ (form_of form).top_bits }
{
    match form {
        Form::Long => 3,
    }
}

// How many values the masked bits have.
fn masked_values(form: Form) -> u8
    ensures { result ≡ 2 ^ (form_of form).masked_bits }
{
    match form {
        Form::Long => 16,
    }
}

// How many values the bits below the reserved ones have.
fn values_below_reserved(form: Form) -> u8
    ensures { result ≡ 2 ^ (form_of form).below_reserved }
{
    match form {
        Form::Long => 4,
    }
}

// RFC 9001 section 5.4.1: the mask's byte on the masked bits of a first byte.
pub fn mask_first(form: Form, mask: u8, first: u8) -> u8
    ensures { result ≡ masked_first (form_of form) mask first }
{
    first ^ (mask % masked_values(form))
}

// The two reserved bits of a first byte.
pub fn reserved_bits(form: Form, first: u8) -> u8
    ensures { result ≡ reserved_bits (form_of form) first }
{
    first / values_below_reserved(form) % 4
}

// Whether a datagram has a size that may come, and a first byte of the form.
pub fn judge_form(datagram: &[u8], form: Form) -> Result<(), Refusal>
    ensures { formed_answer result ≡ formed in_force (form_of form) datagram.now }
{
    if datagram.len() < 1 {
        return Err(Refusal::Size);
    }
    if LIMIT < datagram.len() {
        return Err(Refusal::Size);
    }
    if datagram[0] / 64 != top_bits(form) {
        return Err(Refusal::Form);
    }
    Ok(())
}
