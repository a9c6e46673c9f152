// Arithmetic of 64-bit words: wrapped sums, differences and products; signed quotient, remainder and order.
#![tactic(auto)]

ghost use Rattle.std.specs.Prelude.{◌≡◌, ◌<◌};
ghost use Rattle.word.specs.Words as is;

// The largest word, which is minus one where it is signed.
const LARGEST: u64 = u64::MAX;

// The lowest word that is negative where it is signed.
const SIGN: u64 = 1 << 63;

#[tactic(auto, unfolding(crate::specs::Words::sum))]
pub fn sum(x: u64, y: u64) -> u64
    ensures { result ≡ is.sum x y }
{
    x.wrapping_add(y)
}

#[tactic(auto, unfolding(crate::specs::Words::difference))]
pub fn difference(x: u64, y: u64) -> u64
    ensures { result ≡ is.difference x y }
{
    x.wrapping_sub(y)
}

#[tactic(auto, unfolding(crate::specs::Words::product))]
pub fn product(x: u64, y: u64) -> u64
    ensures { result ≡ is.product x y }
{
    x.wrapping_mul(y)
}

// CQO.
#[tactic(auto, using(std::proofs::lemmas::Int::ints), unfolding(crate::specs::Words::signs))]
pub fn signs(x: u64) -> u64
    ensures { result ≡ is.signs x }
{
    if x.cast_signed() < 0 { LARGEST } else { 0 }
}

#[tactic(auto, using(crate::proofs::Arithmetic::signed_quotient))]
pub fn quotient(x: u64, d: u64) -> u64
    requires { 0 < d }
    ensures { result ≡ is.quotient x d }
{
    x.cast_signed()
        .wrapping_div(d.cast_signed())
        .cast_unsigned()
}

#[tactic(auto, using(crate::proofs::Arithmetic::signed_remainder))]
pub fn remainder(x: u64, d: u64) -> u64
    requires { 0 < d }
    ensures { result ≡ is.remainder x d }
{
    x.cast_signed()
        .wrapping_rem(d.cast_signed())
        .cast_unsigned()
}

// Whether IDIV does not fault.
#[tactic(auto, unfolding(crate::specs::Words::divides))]
pub fn divides(high: u64, low: u64, d: u64) -> bool
    ensures { result ≡ is.divides high low d }
{
    high == signs(low) && d != 0 && !(low == SIGN && d == LARGEST)
}

#[tactic(auto, using(std::proofs::lemmas::Int::ints), unfolding(crate::specs::Words::less, crate::specs::Words::sum))]
pub fn less(x: u64, y: u64) -> bool
    ensures { result ≡ is.less x y }
{
    x.cast_signed() < y.cast_signed()
}
