// Which registers a call may change, from caller_save_registers_info of code.rs. They form a 16-bit set: bit r for register r.
ghost use Rattle.std.specs.Prelude.{◌≡◌, ◌+◌, ◌*◌, ◌≤◌, ◌<◌, length};
ghost use Rattle.records.specs.Contexts.{ext_at};
ghost use Rattle.print_i64.specs.Registers.{registers_to_save, set_of, two_bits, first_backup, backups_used};

// The two bits of variable v: an integer's Snd alone.
fn two_bits(context: &[u8], v: usize) -> u16
    requires { 8 * v + 8 ≤ length context.now }
    ensures { result ≡ two_bits (ext_at context.now v) }
{
    if context[8 * v + 2] == 1 {
        return 2;
    }
    3
}

// Of the first four of n variables.
pub fn registers_to_save(context: &[u8], n: usize) -> u16
    requires { 8 * n ≤ length context.now }
    ensures { result ≡ set_of (registers_to_save (ext_at context.now) n) }
{
    let mut set: u16 = 0;
    for v in 0..n.min(4) {
        set = set | (two_bits(context, v) << (4 + 2 * v));
    }
    set
}

// The first register that no variable has, from 12 on.
pub fn first_backup_register(n: usize) -> u64
    requires { n ≤ 4096 }
    ensures { result ≡ first_backup n }
{
    if n < 4 {
        return 12;
    }
    2 * (n as u64) + 4
}

// How many of so many registers go to free ones.
pub fn backup_registers_used(n: usize, count: u64) -> u64
    requires { n ≤ 4096 }
    ensures { result ≡ backups_used n count }
{
    let first = first_backup_register(n);
    if 16 <= first {
        return 0;
    }
    count.min(16 - first)
}
