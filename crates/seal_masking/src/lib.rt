// Sealing, RFC 9001 section 5.4: the header protected, in any form.
#![tactic(auto)]

ghost use Rattle.std.specs.Prelude.{◌≡◌, ◌+◌, ◌≤◌, length};
ghost use Rattle.header_forms.specs.Answers.{form_of};
ghost use Rattle.protection.specs.Protection.{masked};

use header_forms::{Form, mask_first};

// Section 5.4.1: the mask laid over the packet at the buffer's start, whose number stands in `count` bytes at a place.
pub fn protect(form: Form, mask: [u8; 16], place: usize, count: usize, buffer: &mut [u8])
    requires { (1 ≤ place) × (count ≤ 4) × (place + count ≤ length buffer.old) }
    ensures { buffer.new ≡ masked (form_of form) mask place count buffer.old }
{
    let end = place + count;
    // Kept: a number has one to four bytes, and without a heap they stand in four; `octets::copy_masked` reads no buffer that it writes.
    let mut short = [0u8; 4];
    octets::copy(&mut short, 0, &buffer[place..end]);
    let first = mask_first(form, mask[0], buffer[0]);
    octets::put(buffer, 0, first);
    octets::copy_masked(buffer, place, &short[..count], &mask[1..]);
}
