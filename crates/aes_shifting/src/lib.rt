// The shifting of a state's rows (FIPS 197 section 5.1.2).
#![tactic(auto)]

ghost use Rattle.std.specs.Prelude.{◌≡◌};
ghost use Rattle.aes_shifting.specs.Shifting.{shift_rows};

// Section 5.1.2: ShiftRows.
pub fn shift_rows(s: [[u8; 4]; 4]) -> [[u8; 4]; 4]
    ensures { result ≡ shift_rows s }
{
    let [a, b, c, d] = s;
    [
        [a[0], a[1], a[2], a[3]],
        [b[1], b[2], b[3], b[0]],
        [c[2], c[3], c[0], c[1]],
        [d[3], d[0], d[1], d[2]],
    ]
}
