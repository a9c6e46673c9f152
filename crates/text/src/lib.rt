// Bytes and numbers put into a text at an index. Each function stores what fits and answers the index past all of it: run on a text
// without room it gives the size.
#![tactic(auto)]

ghost use Rattle.std.specs.Prelude.{[], ◌∷◌, ◌+◌, ◌≤◌, length};
ghost use Rattle.text.specs.Text.{digits, decimal, signed_decimal, spaced};
ghost use Rattle.text.specs.Putting.{farthest, Puts};

pub fn put_byte(text: &mut [u8], at: usize, b: u8) -> usize
    requires { at + 1 ≤ farthest }
    ensures { Puts 1 text.old at text.new result (b ∷ []) }
{
    if at < text.len() {
        text[at] = b;
    }
    at + 1
}

pub fn put_bytes(text: &mut [u8], at: usize, s: &[u8]) -> usize
    requires { at + length s.now ≤ farthest }
    ensures { Puts (length s.now) text.old at text.new result s.now }
{
    let mut next = at;
    for b in s {
        next = put_byte(text, next, *b);
    }
    next
}

// At most `most` digits of v.
fn put_digits(text: &mut [u8], at: usize, most: usize, v: u64) -> usize
    requires { at + most ≤ farthest }
    ensures { Puts most text.old at text.new result (digits most v) }
{
    if most == 0 {
        return at;
    }
    if v < 10 {
        return put_byte(text, at, 48 + (v as u8));
    }
    let next = put_digits(text, at, most - 1, v / 10);
    put_byte(text, next, 48 + ((v % 10) as u8))
}

pub fn put_decimal(text: &mut [u8], at: usize, v: u64) -> usize
    requires { at + 20 ≤ farthest }
    ensures { Puts 20 text.old at text.new result (decimal v) }
{
    put_digits(text, at, 20, v)
}

// The lowest word that is negative as two's complement.
const SIGN: u64 = 1 << 63;

// The integer whose two's complement is v.
pub fn put_signed(text: &mut [u8], at: usize, v: u64) -> usize
    requires { at + 21 ≤ farthest }
    ensures { Puts 21 text.old at text.new result (signed_decimal v) }
{
    if v < SIGN {
        return put_decimal(text, at, v);
    }
    let next = put_byte(text, at, b'-');
    put_decimal(text, next, 0xFFFFFFFFFFFFFFFF - v + 1)
}

// A space, then v.
pub fn put_spaced(text: &mut [u8], at: usize, v: u64) -> usize
    requires { at + 21 ≤ farthest }
    ensures { Puts 21 text.old at text.new result (spaced (decimal v)) }
{
    let next = put_byte(text, at, b' ');
    put_decimal(text, next, v)
}

// A space, then the integer whose two's complement is v.
pub fn put_spaced_signed(text: &mut [u8], at: usize, v: u64) -> usize
    requires { at + 22 ≤ farthest }
    ensures { Puts 22 text.old at text.new result (spaced (signed_decimal v)) }
{
    let next = put_byte(text, at, b' ');
    put_signed(text, next, v)
}
