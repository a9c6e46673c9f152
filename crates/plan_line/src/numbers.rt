// The number of a word.
ghost use Rattle.std.specs.Prelude.{◌≡◌, ◌-◌, ◌%◌, ◌≤◌};
ghost use Rattle.plan_line.specs.Numbers.{is_digit, all_digits, digits_value, within, natural_of, integer_in};

use crate::wrong::Wrong;

fn is_digit(b: u8) -> bool
    ensures { result ≡ is_digit b }
{
    48 <= b && b < 58
}

fn digit_value(b: u8) -> u64
    ensures { result ≡ b - 48 }
{
    u64::from(b.saturating_sub(48))
}

fn are_digits(w: &[u8]) -> bool
    ensures { result ≡ all_digits w.now }
{
    w.iter().all(|b| is_digit(*b))
}

// The value of a word of digits, where it is at most `limit`. No product passes 64 bits: a value above a tenth of the limit is above
// the limit with one digit more.
fn value_within(w: &[u8], limit: u64) -> Result<u64, Wrong>
    requires { limit ≤ 0x8000_0000_0000_0000 }
    ensures { result ≡ within limit (digits_value 0 w.now) }
{
    let mut value: u64 = 0;
    for b in w {
        if limit / 10 < value {
            return Err(Wrong::OutOfRange);
        }
        value = 10 * value + digit_value(*b);
    }
    if value <= limit {
        Ok(value)
    } else {
        Err(Wrong::OutOfRange)
    }
}

pub fn natural(w: &[u8], limit: u64) -> Result<u64, Wrong>
    requires { limit ≤ 0x8000_0000_0000_0000 }
    ensures { result ≡ natural_of limit w.now }
{
    if w.is_empty() || !are_digits(w) {
        return Err(Wrong::NotNumber);
    }
    value_within(w, limit)
}

// The two's complement of a number with a sign in front of it.
fn negative(v: u64) -> u64
    ensures { result ≡ (0x1_0000_0000_0000_0000 - v) % 0x1_0000_0000_0000_0000 }
{
    v.wrapping_neg()
}

pub fn integer(w: &[u8]) -> Result<u64, Wrong>
    ensures { result ≡ integer_in w.now }
{
    match w.strip_prefix(b"-") {
        Some(digits) => {
            let value = natural(digits, 0x8000000000000000)?;
            Ok(negative(value))
        }
        None => natural(w, 0x7FFFFFFFFFFFFFFF),
    }
}
