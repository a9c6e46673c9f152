// What the queries of utils.rs and config.rs are asked and answer, as numbers.
// Kept: a number, and its value through `&mut`, as the C interface gives them.
ghost use Rattle.std.specs.Prelude.{◌≡◌, [], ◌∷◌};
ghost use Rattle.port_numbers.specs.Query.{temporary_numbers, offset_numbers, half_of};

use crate::check;
use layout::config::NoOffset;
use layout::utils::{NoTemporary, TemporaryNumber};

// An answer as its number, and its operand.
pub fn located(temporary: Result<u64, NoTemporary>, value: &mut u64) -> u64
    ensures { result ∷ value.new ∷ [] ≡ temporary_numbers temporary }
{
    *value = 0;
    match temporary {
        Ok(operand) => {
            *value = operand;
            0
        }
        Err(NoTemporary::Context(flaw)) => check::flaw_told(flaw, value),
        Err(NoTemporary::Frame) => 3,
        Err(NoTemporary::Missing) => 4,
        Err(NoTemporary::OutOfTemporaries) => 8,
    }
}

pub fn half_of(second: bool) -> TemporaryNumber
    ensures { result ≡ half_of second }
{
    if second {
        TemporaryNumber::Snd
    } else {
        TemporaryNumber::Fst
    }
}

// An answer as its number, and its offset.
pub fn measured(offset: Result<u64, NoOffset>, value: &mut u64) -> u64
    ensures { result ∷ value.new ∷ [] ≡ offset_numbers offset }
{
    *value = 0;
    match offset {
        Ok(bytes) => {
            *value = bytes;
            0
        }
        Err(NoOffset::Operand) => 3,
        Err(NoOffset::Edition) => 23,
    }
}
