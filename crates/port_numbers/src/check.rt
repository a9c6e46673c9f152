// Bytes checked: a context, a list of instruction records, an order.
// Kept: a number, and its value through `&mut`, as the C interface gives them.
ghost use Rattle.std.specs.Prelude.{◌≡◌, [], ◌∷◌};
ghost use Rattle.records.specs.Checked.{checked_cause};
ghost use Rattle.records.specs.Contexts.{checked_context, flaw_cause, context_cause};
ghost use Rattle.records.specs.Instructions.{checked_codes};
ghost use Rattle.records.specs.Orders.{order_read, order_cause};
ghost use Rattle.port_numbers.specs.Numbers.{numbers_in};

use records::check::Malformed;
use records::context::Flaw;

// What is bad in a context, as its number and its place. Every answer that carries it tells it so.
pub fn flaw_told(flaw: Flaw, place: &mut u64) -> u64
    ensures { result ∷ place.new ∷ [] ≡ numbers_in (flaw_cause flaw) }
{
    match flaw {
        Flaw::Length => {
            *place = 0;
            15
        }
        Flaw::Mark(at) => {
            *place = at as u64;
            16
        }
        Flaw::Kind(at) => {
            *place = at as u64;
            17
        }
    }
}

// Bytes that are no records, as their number and the record's place.
fn malformed_told(bad: Malformed, place: &mut u64) -> u64
    ensures { result ∷ place.new ∷ [] ≡ 2 ∷ bad.place ∷ [] }
{
    *place = bad.place as u64;
    2
}

pub fn check_context(bytes: &[u8], place: &mut u64) -> u64
    ensures { result ∷ place.new ∷ [] ≡ numbers_in (context_cause (checked_context bytes.now)) }
{
    match records::context::check_context(bytes) {
        Ok(_) => {
            *place = 0;
            0
        }
        Err(flaw) => flaw_told(flaw, place),
    }
}

pub fn check_records(bytes: &[u8], place: &mut u64) -> u64
    ensures { result ∷ place.new ∷ [] ≡ numbers_in (checked_cause (checked_codes 65536 bytes.now)) }
{
    match records::code::check_codes(bytes, 65536) {
        Ok(_) => {
            *place = 0;
            0
        }
        Err(bad) => malformed_told(bad, place),
    }
}

pub fn check_order(bytes: &[u8], place: &mut u64) -> u64
    ensures { result ∷ place.new ∷ [] ≡ numbers_in (order_cause (order_read bytes.now)) }
{
    match records::order::read_order(bytes) {
        Ok(_) => {
            *place = 0;
            0
        }
        Err(bad) => malformed_told(bad, place),
    }
}
