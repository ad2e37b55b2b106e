// The mixing of a state's columns (FIPS 197 section 5.1.3).
#![tactic(auto)]

ghost use Rattle.std.specs.Prelude.{◌≡◌, get_or};
ghost use Rattle.aes_s_box.specs.Field.{x_times};
ghost use Rattle.aes_state.specs.State.{row};
ghost use Rattle.aes_mixing.specs.Mixing.{mixed, mix_columns};

// Section 4.2: a byte times x.
fn x_times(b: u8) -> u8
    ensures { result ≡ x_times b }
{
    ((b >> 7) * 0x1b) ^ (b << 1)
}

// Section 5.1.3: one byte of a mixed column.
fn mix(a: u8, b: u8, c: u8, d: u8) -> u8
    ensures { result ≡ mixed a b c d }
{
    x_times(a) ^ (b ^ x_times(b)) ^ c ^ d
}

// One row of the mixed columns.
fn mix_row(a: [u8; 4], b: [u8; 4], c: [u8; 4], d: [u8; 4]) -> [u8; 4]
    ensures { result ≡ row (λ i. mixed (get_or a i 0) (get_or b i 0) (get_or c i 0) (get_or d i 0)) }
{
    // Kept: `array::from_fn(|i| mix(a[i], b[i], c[i], d[i]))` proves, but misses what docs/BENCH.md has of the byte engine: a round then
    // has 443 machine instructions, where these lines have 289.
    [
        mix(a[0], b[0], c[0], d[0]),
        mix(a[1], b[1], c[1], d[1]),
        mix(a[2], b[2], c[2], d[2]),
        mix(a[3], b[3], c[3], d[3]),
    ]
}

// Section 5.1.3: MixColumns.
pub fn mix_columns(s: [[u8; 4]; 4]) -> [[u8; 4]; 4]
    ensures { result ≡ mix_columns s }
{
    let [a, b, c, d] = s;
    [
        mix_row(a, b, c, d),
        mix_row(b, c, d, a),
        mix_row(c, d, a, b),
        mix_row(d, a, b, c),
    ]
}
