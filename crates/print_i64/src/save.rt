// The registers of a set saved before a call and restored after it, from code.rs. The first `used` go to free registers from `first` on,
// the others are pushed; an even number of pushes takes 8 more bytes of the stack.
ghost use Rattle.std.specs.Prelude.{◌≡◌, refl, ◌+◌, ◌-◌, ◌≤◌, ◌<◌, ◌^◌, length, drop};
ghost use Rattle.std.specs.Int.Count.{ones};
ghost use Rattle.records.specs.declared.code.Code.TheVariants.{ADDI};
ghost use Rattle.emit.specs.Emitted.{fields_list, Emitted, Emits};
ghost use Rattle.print_i64.specs.Registers.{members, CallerSaved};
ghost use Rattle.print_i64.specs.Print.{pops, if_even, save_registers, restore_registers};
ghost use Rattle.print_i64.specs.Saved.{move_one, move_all, pop_one};

use emit::cursor::{Cursor, Row};
use layout::config::STACK;
use records::number::{self, MOV, POP, PUSH, SUBI};

// Register r, if it is in the set; `done` of the set are below it. `back` says that it is restored: one that was pushed is left to `pop_all`.
fn move_one(
    out: &mut [u8],
    p: Cursor,
    back: bool,
    set: u16,
    first: u64,
    used: u64,
    done: u64,
    r: u8,
) -> Cursor
    requires { (p.at + 24 < 2 ^ 64) × (used ≤ 16 - first) × (r < 16) }
    ensures { Emitted out.old p out.new result (fields_list (move_one back first used done r set)) 0 }
{
    if (set >> r) % 2 != 1 {
        return p;
    }
    if done < used {
        let free = (first + done) as u8;
        if back {
            return emit::cursor::emit(out, p, Row(MOV, r, free, 0, 0, 0));
        }
        return emit::cursor::emit(out, p, Row(MOV, free, r, 0, 0, 0));
    }
    if back {
        return p;
    }
    emit::cursor::emit(out, p, Row(PUSH, r, 0, 0, 0, 0))
}

// From the lowest register on.
fn move_all(out: &mut [u8], p: Cursor, back: bool, set: u16, first: u64, used: u64) -> Cursor
    requires { (p.at + 384 < 2 ^ 64) × (used ≤ 16 - first) × CallerSaved set }
    ensures { Emitted out.old p out.new result (fields_list (move_all back first used (members 16 set))) 0 }
{
    let mut q = p;
    let mut done: u64 = 0;
    for r in 4..12 {
        q = move_one(out, q, back, set, first, used, done, r);
        done = done + ((set >> r) % 2) as u64;
    }
    q
}

// Register r, if it was pushed; `left` of the set are below it.
fn pop_one(out: &mut [u8], p: Cursor, set: u16, used: u64, left: u64, r: u8) -> Cursor
    requires { (p.at + 24 < 2 ^ 64) × (r < 16) }
    ensures { Emitted out.old p out.new result (fields_list (pop_one used left r set)) 0 }
{
    if (set >> r) % 2 != 1 {
        return p;
    }
    if used <= left {
        return emit::cursor::emit(out, p, Row(POP, r, 0, 0, 0, 0));
    }
    p
}

// From the highest register on.
fn pop_all(out: &mut [u8], p: Cursor, set: u16, count: u64, used: u64) -> Cursor
    requires { (p.at + 384 < 2 ^ 64) × (count ≡ length (members 16 set)) × CallerSaved set }
    ensures { Emits out.old p out.new result (pops (drop used (members 16 set))) }
{
    let mut q = p;
    let mut left = count;
    for r in (4..12).rev() {
        left = left - ((set >> r) % 2) as u64;
        q = pop_one(out, q, set, used, left, r);
    }
    q
}

// The pushes are as many as the ones of the set that go to no free register.
pub fn save_caller_save_registers(
    out: &mut [u8],
    p: Cursor,
    set: u16,
    first: u64,
    used: u64,
) -> Cursor
    requires { (p.at + 408 < 2 ^ 64) × (used ≤ 16 - first) × (used ≤ ones set) × CallerSaved set }
    ensures { Emits out.old p out.new result (save_registers first used (members 16 set)) }
{
    let count = u16::count_ones(set) as u64;
    let q = move_all(out, p, false, set, first, used);
    if (count - used) % 2 == 0 {
        return emit::cursor::emit(out, q, Row(SUBI, STACK, 0, 0, 0, 8));
    }
    q
}

// The 8 bytes back, where they were taken.
fn free_alignment(out: &mut [u8], p: Cursor, pushed: u64) -> Cursor
    requires { p.at + 24 < 2 ^ 64 }
    ensures { Emits out.old p out.new result (if_even pushed (ADDI 0 8) refl) }
{
    if pushed % 2 == 0 {
        return emit::cursor::emit(out, p, Row(number::ADDI, STACK, 0, 0, 0, 8));
    }
    p
}

pub fn restore_caller_save_registers(
    out: &mut [u8],
    p: Cursor,
    set: u16,
    first: u64,
    used: u64,
) -> Cursor
    requires { (p.at + 792 < 2 ^ 64) × (used ≤ 16 - first) × (used ≤ ones set) × CallerSaved set }
    ensures { Emits out.old p out.new result (restore_registers first used (members 16 set)) }
{
    let count = u16::count_ones(set) as u64;
    let q = move_all(out, p, true, set, first, used);
    let s = free_alignment(out, q, count - used);
    pop_all(out, s, set, count, used)
}
