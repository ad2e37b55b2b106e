// Blocks, their sum, and the steps of their product (SP 800-38D section 6.3).
#![tactic(auto)]

ghost use Rattle.std.specs.Prelude.{◌≡◌, ◌*◌, ◌^◌, ◌<◌};
ghost use Rattle.std.specs.Int.Bits.{bit_xor};
ghost use Rattle.gcm_field.specs.Field.{next, num, nexts};

// A block of sixteen bytes: `hi` spells the first eight, the first byte highest.
#[derive(Clone, Copy, Debug, PartialEq, Eq)]
pub struct Block {
    pub hi: u64,
    pub lo: u64,
}

// The sum of two blocks.
pub fn add(a: Block, b: Block) -> Block
    ensures { num result ≡ bit_xor (num a) (num b) }
{
    Block {
        hi: a.hi ^ b.hi,
        lo: a.lo ^ b.lo,
    }
}

// V after one step.
pub fn shifted(v: Block) -> Block
    ensures { num result ≡ next (num v) }
{
    Block {
        hi: (v.hi >> 1) ^ ((v.lo % 2) * 0xe100_0000_0000_0000),
        lo: (v.hi << 63) | (v.lo >> 1),
    }
}

// What four bits that are shifted out add to the high word.
fn reduced(k: u64) -> u64
    requires { k < 16 }
    ensures { result * 2 ^ 64 ≡ nexts 4 k }
{
    ((k << 60) ^ (k << 59)) ^ ((k << 58) ^ (k << 53))
}

// V after four steps.
pub fn shifted_by_four(v: Block) -> Block
    ensures { num result ≡ nexts 4 (num v) }
{
    Block {
        hi: (v.hi >> 4) ^ reduced(v.lo % 16),
        lo: (v.hi << 60) | (v.lo >> 4),
    }
}

// V after sixteen steps: at the next run.
pub fn next_run(v: Block) -> Block
    ensures { num result ≡ nexts 16 (num v) }
{
    shifted_by_four(shifted_by_four(shifted_by_four(shifted_by_four(v))))
}
