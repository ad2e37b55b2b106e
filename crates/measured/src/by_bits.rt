// SP 800-38D sections 6.3 and 6.4 as they are written, a bit at a time: what the table is measured against.
ghost use Rattle.std.specs.Prelude.{◌≡◌, ◌*◌, ◌<◌};
ghost use Rattle.gcm_field.specs.Field.{steps, ◌•◌, num, nexts};
ghost use Rattle.gcm_hash.specs.Hash.{ghash};

use gcm_field::Block;

// Z and V, on their way through the bits of X.
#[derive(Clone, Copy)]
pub struct Walk {
    pub z: Block,
    pub v: Block,
}

// V where the bit is 1, and zeros where it is 0.
fn chosen(bit: u64, v: Block) -> Block
    requires { bit < 2 }
    ensures { num result ≡ bit * num v }
{
    Block {
        hi: bit * v.hi,
        lo: bit * v.lo,
    }
}

// The steps for the bits of a word, the highest first.
fn through(w: u64, earlier: Walk) -> Walk
    ensures { (num result.z ≡ steps 64 w (num earlier.z) (num earlier.v)) × (num result.v ≡ nexts 64 (num earlier.v)) }
{
    let mut z = earlier.z;
    let mut v = earlier.v;
    for n in (0..64u64).rev() {
        z = gcm_field::add(z, chosen((w >> n) % 2, v));
        v = gcm_field::shifted(v);
    }
    Walk { z, v }
}

// X • H (section 6.3).
fn times(x: Block, h: Block) -> Block
    ensures { num result ≡ num x • num h }
{
    let first = Walk {
        z: Block { hi: 0, lo: 0 },
        v: h,
    };
    let last = through(x.lo, through(x.hi, first));
    last.z
}

// GHASH of the whole blocks of some bytes (section 6.4).
pub fn hash(h: Block, source: &[u8]) -> Block
    ensures { num result ≡ ghash (num h) source.now }
{
    let mut y = Block { hi: 0, lo: 0 };
    for block in source.chunks_exact(16) {
        y = times(gcm_field::add(y, gcm_hash::load_block(block, 0)), h);
    }
    y
}
