// How many records a store or a load of variables has at most: an output with room for so many is written in one pass. From memory.rs.
#![tactic(auto)]

ghost use Rattle.std.specs.Prelude.{◌≡◌, ◌+◌, ◌*◌, ◌-◌, ◌<◌, ◌≤◌, ◌^◌};
ghost use Rattle.emit.specs.Answers.{ample};
ghost use Rattle.layout.specs.Config.{Supported};
ghost use Rattle.trees.specs.Tree.{size};
ghost use Rattle.memory.specs.Objects.{chunks, store_values, store_others};
ghost use Rattle.memory_bounds.specs.Bounds.{stored_within, loaded_within, stored_labels, loaded_labels, linked, store_most, word_records};

use layout::config::Shape;

// How many blocks come before the last one of an object, where the last leaves `rest` variables to them. A short object has none, and costs no division.
pub fn other_blocks(g: Shape, rest: u64) -> u64
    requires { (rest ≤ 4096) × Supported g }
    ensures { (result ≡ chunks (g.fields - 1) rest) × (result ≤ 4102) }
{
    if rest == 0 {
        return 0;
    }
    let each = g.fields - 1;
    (rest + (each - 1)) / each
}

// By the number of the variables alone: of a store,
fn stored_within(g: Shape, n: u64) -> u64
    requires { (n ≤ 4096) × Supported g }
    ensures { (result ≡ stored_within g n) × (result < 2 ^ 31) }
{
    let rest = n.saturating_sub(g.fields);
    16 * g.fields + 19 + (16 * g.fields + 17) * other_blocks(g, rest)
}

// and of a load, whose blocks are loaded in two ways.
fn loaded_within(g: Shape, n: u64) -> u64
    requires { (n ≤ 4096) × Supported g }
    ensures { (result ≡ loaded_within g n) × (result < 2 ^ 32) }
{
    let rest = n.saturating_sub(g.fields);
    let each = g.fields - 1;
    12 * g.fields + 15 + (12 * each + 8) * other_blocks(g, rest)
}

fn word_records(v: u64) -> u64
    ensures { (result ≡ word_records v) × (result ≤ 2) }
{
    if v < 6 { 1 } else { 2 }
}

// The k variables from v on, linked, in `free` fields.
fn values_records(g: Shape, v: u64, k: u64, free: u64) -> u64
    requires { (k ≤ free) × (free ≤ 4096) × (v ≤ 4096) }
    ensures { (result ≡ size (store_values g linked v k free)) × (result ≤ 16384) }
{
    let registers = 6u64.saturating_sub(v) - 6u64.saturating_sub(v + k);
    3 * k + free - 2 * registers
}

// The n variables from v on, linked, in m blocks before the last.
fn others_records(g: Shape, m: u64, v: u64, n: u64) -> u64
    requires { (m ≤ 4102) × (v + n ≤ 4096) × Supported g }
    ensures { (result ≡ size (store_others g linked m v n)) × (result ≤ 65536 * m) }
{
    let each = g.fields - 1;
    let mut total = 0;
    let mut left = n;
    for _ in 0..m {
        let rest = left.saturating_sub(each);
        let values = values_records(g, v + rest, left - rest, each);
        let link = word_records(v + left);
        let pointer = word_records(v + rest);
        total = total + (link + values + 12 * g.fields + 17 + pointer);
        left = rest;
    }
    total
}

// By where they stand: of a store of n variables from v on, linked.
fn store_most(g: Shape, v: u64, n: u64) -> u64
    requires { (v + n ≤ 4096) × Supported g }
    ensures { (result ≡ store_most g v n) × (result < 2 ^ 31) }
{
    if n == 0 {
        return 1;
    }
    let rest = n.saturating_sub(g.fields);
    let values = values_records(g, v + rest, n - rest, g.fields);
    let pointer = word_records(v + rest);
    let m = other_blocks(g, rest);
    values + 12 * g.fields + 17 + pointer + others_records(g, m, v, rest)
}

// Whether an output and the labels left are enough for a store of n variables from v on and `more` records, whatever the variables' kinds. The bound by their
// number is tried first, since it is there at once.
pub fn store_ample(g: Shape, counter: u64, room: usize, v: u64, n: u64, more: u64) -> bool
    requires { (v + n ≤ 4096) × (more ≤ 1) × Supported g }
    ensures { result ≡ ample counter room (stored_labels n) (store_most g v n + more) }
{
    let labels = 10 * n + 100;
    if emit::answer::ample(counter, room, labels, stored_within(g, n) + more) {
        return true;
    }
    emit::answer::ample(counter, room, labels, store_most(g, v, n) + more)
}

// And for a load of n variables.
pub fn load_ample(g: Shape, counter: u64, room: usize, n: u64) -> bool
    requires { (n ≤ 4096) × Supported g }
    ensures { result ≡ ample counter room (loaded_labels n) (loaded_within g n) }
{
    emit::answer::ample(counter, room, 2 * n + 42, loaded_within(g, n))
}
