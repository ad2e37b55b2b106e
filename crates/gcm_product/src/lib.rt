// The product of blocks (SP 800-38D section 6.3), by the table of the hash key.
#![tactic(auto)]

ghost use Rattle.std.specs.Prelude.{◌≡◌, ◌/◌, ◌%◌, ◌^◌, ◌<◌, ◌≤◌};
ghost use Rattle.gcm_field.specs.Field.{num, nexts, ◌•◌};
ghost use Rattle.gcm_table.specs.Table.{key_of};
ghost use Rattle.gcm_product.specs.Runs.{runs};

use gcm_field::{Block, add, shifted_by_four};
use gcm_table::KeyTable;

// The four bits of w from the one of weight 2 ^ n up.
fn nibble(w: u64, n: u64) -> usize
    requires { n < 64 }
    ensures { result ≡ w / 2 ^ n % 16 }
{
    ((w >> n) % 16) as usize
}

// What the four lowest bits of each of w's four runs add to Z, by the entries from e on.
fn four(table: &KeyTable, e: usize, w: u64) -> Block
    requires { (e % 16 ≡ 0) × (e ≤ 64) }
    ensures { num result ≡ runs 4 4 w (nexts e (key_of table.now.entries)) }
{
    let a = table.entries[e + nibble(w, 48)];
    let b = table.entries[e + 16 + nibble(w, 32)];
    let c = table.entries[e + 32 + nibble(w, 16)];
    let d = table.entries[e + 48 + nibble(w, 0)];
    add(add(a, b), add(c, d))
}

// X • H, with the table of H: the four bits of each run of sixteen at a time, the lowest first.
pub fn times(table: &KeyTable, x: Block) -> Block
    ensures { num result ≡ num x • key_of table.now.entries }
{
    let mut z = Block { hi: 0, lo: 0 };
    for n in 0..4u64 {
        let high = four(table, 0, x.hi >> (4 * n));
        let low = four(table, 64, x.lo >> (4 * n));
        z = add(shifted_by_four(z), add(high, low));
    }
    z
}
