// The checks of bytes for C and Rust: a context, a list of instruction records, an order.
ghost use Rattle.std.specs.Prelude.{◌≡◌, [], ◌∷◌};
ghost use Rattle.port.specs.Check.{check_numbers};

// 1 a context, 2 a list of instruction records, 3 an order.
pub fn axcut_check(kind: u64, bytes: &[u8], place: &mut u64) -> u64
    ensures { result ∷ place.new ∷ [] ≡ check_numbers kind bytes.now }
{
    match kind {
        1 => port_numbers::check::check_context(bytes, place),
        2 => port_numbers::check::check_records(bytes, place),
        3 => port_numbers::check::check_order(bytes, place),
        _ => {
            *place = 0;
            3
        }
    }
}
