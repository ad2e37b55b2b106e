// GHASH as a stream (SP 800-38D section 6.4): its bytes come in pieces, and the state goes in by value and comes back.
#![tactic(auto)]

ghost use Rattle.std.specs.Prelude.{◌≡◌, ◌+◌, ◌^◌, ◌<◌, ◌≤◌, length};
ghost use Rattle.octets.specs.Octets.{number, part};
ghost use Rattle.gcm_field.specs.Field.{num};

use gcm_field::{Block, add};
use gcm_product::times;
use gcm_table::KeyTable;

// GHASH on its way: Y with the bytes of the present block added, and how many those are.
#[derive(Clone, Copy, Debug, PartialEq, Eq)]
pub struct Ghash {
    pub y: Block,
    pub filled: usize,
    pub ghost is_open: { filled < 16 },
}

// A state, and how far it has come in a slice.
#[derive(Clone, Copy)]
struct Reached {
    g: Ghash,
    at: usize,
}

// The sixteen bytes from `at` on as a block.
pub fn load_block(bytes: &[u8], at: usize) -> Block
    requires { at + 16 ≤ length bytes.now }
    ensures { num result ≡ number (part bytes.now at 16) }
{
    let middle = at + 8;
    let end = at + 16;
    let hi = octets::load(&bytes[at..middle]);
    let lo = octets::load(&bytes[middle..end]);
    Block { hi, lo }
}

impl Ghash {
    ghost use Rattle.gcm_table.specs.Table.{key_of};
    ghost use Rattle.gcm_hash.specs.Hash.{state, start, put, taken, absorbed, Onward, closed, finished};

    // Before the first byte.
    pub fn begin() -> Self
        ensures { state result ≡ start }
    {
        Ghash {
            y: Block { hi: 0, lo: 0 },
            filled: 0,
        }
    }

    // Y with a byte added at the next place of the block.
    fn with_byte(self, byte: u8) -> Block
        ensures { num result ≡ put (num self.y) self.filled byte }
    {
        let y = self.y;
        if self.filled < 8 {
            Block {
                hi: y.hi ^ ((byte as u64) << (56 - 8 * self.filled)),
                lo: y.lo,
            }
        } else {
            Block {
                hi: y.hi,
                lo: y.lo ^ ((byte as u64) << (120 - 8 * self.filled)),
            }
        }
    }

    // One byte more.
    fn absorb_byte(self, table: &KeyTable, byte: u8) -> Self
        ensures { state result ≡ taken (key_of table.now.entries) (state self) byte }
    {
        let y = self.with_byte(byte);
        if self.filled < 15 {
            return Ghash {
                y,
                filled: self.filled + 1,
            };
        }
        Ghash {
            y: times(table, y),
            filled: 0,
        }
    }

    // A whole block where one starts and is there, or else one byte.
    fn absorb_next(self, table: &KeyTable, bytes: &[u8], at: usize) -> Reached
        requires { at < length bytes.now }
        ensures { Onward (key_of table.now.entries) bytes.now (state self) at (state result.g) result.at }
    {
        if self.filled == 0 {
            if 16 <= bytes.len() - at {
                let y = times(table, add(self.y, load_block(bytes, at)));
                return Reached {
                    g: Ghash { y, filled: 0 },
                    at: at + 16,
                };
            }
        }
        Reached {
            g: self.absorb_byte(table, bytes[at]),
            at: at + 1,
        }
    }

    // More bytes, by whole blocks where they lie so.
    pub fn absorb(self, table: &KeyTable, bytes: &[u8]) -> Self
        ensures { state result ≡ absorbed (key_of table.now.entries) (state self) bytes.now }
    {
        let mut g = self;
        let mut at: usize = 0;
        // Kept: no `for` is plainer, as a turn takes sixteen bytes or one, and `absorb_next` says which.
        while at < bytes.len() {
            let reached = g.absorb_next(table, bytes, at);
            g = reached.g;
            at = reached.at;
        }
        g
    }

    // The end of the associated data or of the text: a block that has begun counts as filled with zeros.
    pub fn pad(self, table: &KeyTable) -> Self
        ensures { (state result ≡ closed (key_of table.now.entries) (state self)) × (result.filled ≡ 0) }
    {
        if 0 < self.filled {
            return Ghash {
                y: times(table, self.y),
                filled: 0,
            };
        }
        self
    }

    // The end of all: the block of the two lengths, in bits.
    pub fn finish(self, table: &KeyTable, associated: usize, cipher: usize) -> Block
        requires { (associated < 2 ^ 61) × (cipher < 2 ^ 61) }
        ensures { num result ≡ finished (key_of table.now.entries) (state self) associated cipher }
    {
        let lengths = Block {
            hi: 8 * (associated as u64),
            lo: 8 * (cipher as u64),
        };
        let g = self.pad(table);
        times(table, add(g.y, lengths))
    }
}
