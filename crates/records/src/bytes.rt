// Little-endian numbers in slices of bytes, and bytes copied.
ghost use Rattle.std.specs.Prelude.{◌≡◌, [], ◌∷◌, ◌+◌, ◌≤◌, length, take};
ghost use Rattle.std.proofs.lemmas.List.Edits.{sets};
ghost use Rattle.records.specs.Bytes.{le, number};

// The largest numbers of 4 and of 8 bytes.
pub const MOST4: u32 = 4294967295;

pub const MOST8: u64 = 18446744073709551615;

pub fn number4(s: &[u8], at: usize) -> u32
    requires { at + 4 ≤ length s.now }
    ensures { result ≡ number 4 s.now at }
{
    u32::from_le_bytes([s[at], s[at + 1], s[at + 2], s[at + 3]])
}

pub fn number8(s: &[u8], at: usize) -> u64
    requires { at + 8 ≤ length s.now }
    ensures { result ≡ number 8 s.now at }
{
    u64::from(number4(s, at)) + (u64::from(number4(s, at + 4)) << 32)
}

// The four bytes that start a record.
pub fn store_head(out: &mut [u8], at: usize, mark: u8, second: u8, third: u8, fourth: u8)
    requires { at + 4 ≤ length out.old }
    ensures { out.new ≡ sets out.old at (mark ∷ second ∷ third ∷ fourth ∷ []) }
{
    out[at] = mark;
    out[at + 1] = second;
    out[at + 2] = third;
    out[at + 3] = fourth;
}

pub fn store4(out: &mut [u8], at: usize, v: u32)
    requires { at + 4 ≤ length out.old }
    ensures { out.new ≡ sets out.old at (le 4 v) }
{
    out[at] = (v % 256) as u8;
    out[at + 1] = (v / 256 % 256) as u8;
    out[at + 2] = (v / 256 / 256 % 256) as u8;
    out[at + 3] = (v / 256 / 256 / 256 % 256) as u8;
}

pub fn store8(out: &mut [u8], at: usize, v: u64)
    requires { at + 8 ≤ length out.old }
    ensures { out.new ≡ sets out.old at (le 8 v) }
{
    out[at] = (v % 256) as u8;
    out[at + 1] = (v / 256 % 256) as u8;
    out[at + 2] = (v / 256 / 256 % 256) as u8;
    out[at + 3] = (v / 256 / 256 / 256 % 256) as u8;
    out[at + 4] = (v / 256 / 256 / 256 / 256 % 256) as u8;
    out[at + 5] = (v / 256 / 256 / 256 / 256 / 256 % 256) as u8;
    out[at + 6] = (v / 256 / 256 / 256 / 256 / 256 / 256 % 256) as u8;
    out[at + 7] = (v / 256 / 256 / 256 / 256 / 256 / 256 / 256 % 256) as u8;
}

// The first `count` bytes of `from`, from byte `at` on. Kept: three calls of order_check would slice both sides and prove anew that this is `sets`. Byte by byte:
// `copy_from_slice` would have the library for C want `memmove` of libc.
pub fn copy_bytes(out: &mut [u8], at: usize, from: &[u8], count: usize)
    requires { (count ≤ length from.now) × (at + count ≤ length out.old) }
    ensures { out.new ≡ sets out.old at (take count from.now) }
{
    for i in 0..count {
        out[at + i] = from[i];
    }
}
