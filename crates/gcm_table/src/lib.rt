// The table by which a hash key multiplies (SP 800-38D section 6.3).
#![tactic(auto)]

ghost use Rattle.std.specs.Prelude.{◌≡◌, ℕ, ◌+◌, ◌*◌, ◌%◌, ◌<◌, ◌≤◌, length, set};
ghost use Rattle.std.specs.Int.Bits.{bit_xor};
ghost use Rattle.gcm_field.specs.Field.{num, nexts};
ghost use Rattle.gcm_table.specs.Table.{Filled, Doubled, key_of, Table};

use gcm_field::{Block, add, next_run, shifted};

// As many entries of a run again as it has: those of k + i, of those of k below i, where w is the one of i.
fn double(table: &mut [Block], e: usize, i: usize, w: Block)
    requires { (length table.old ≡ 128) × (e % 16 ≡ 0) × (e < 128) × (i ≤ 8) × ((k : ℕ) → k < i → bit_xor i k ≡ i + k) }
    ensures { Doubled table.old table.new e i (num w) }
{
    for k in 0..i {
        table[e + i + k] = add(w, table[e + k]);
    }
}

// The sixteen entries of a run, whose V is v.
// Kept: that a run begins at a multiple of sixteen is said of a number here, in `double` and in `gcm_product::four`: a type for it would
// be turned into a number at each entry.
fn fill_run(table: &mut [Block], e: usize, v: Block)
    requires { (length table.old ≡ 128) × (e % 16 ≡ 0) × (e < 128) }
    ensures { (h : ℕ) → num v ≡ nexts e h → Filled h table.old e → Filled h table.new (e + 16) }
{
    let v1 = shifted(v);
    let v2 = shifted(v1);
    let v3 = shifted(v2);
    table[e] = Block { hi: 0, lo: 0 };
    double(table, e, 1, v3);
    double(table, e, 2, v2);
    double(table, e, 4, v1);
    double(table, e, 8, v);
}

// The table of a hash key: all its entries are right.
#[derive(Clone, Copy)]
pub struct KeyTable {
    pub entries: [Block; 128],
    pub ghost is_table: { Table entries },
}

// The table of a hash key is made run by run.
pub fn make_table(h: Block) -> KeyTable
    ensures { key_of result.entries ≡ num h }
{
    let mut entries = [Block { hi: 0, lo: 0 }; 128];
    let mut v = h;
    for run in 0..8 {
        fill_run(&mut entries, 16 * run, v);
        v = next_run(v);
    }
    KeyTable { entries }
}
