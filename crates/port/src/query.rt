// Where variables and fields stand, for C and Rust: the queries of utils.rs and config.rs.
ghost use Rattle.std.specs.Prelude.{◌≡◌, [], ◌∷◌};
ghost use Rattle.port.specs.Query.{query_numbers};

use layout::config;

// 1 the operand of a position, 2 the fresh temporary past a context, 3 the temporary of a variable by its id, 4 a spill's offset from STACK,
// 5 a field's offset in a block, whatever the frame. `at` is the position, the spill's word or the field.
pub fn axcut_query(
    edition: u64,
    frame: u64,
    query: u64,
    second: bool,
    at: u64,
    id: u32,
    context: &[u8],
    value: &mut u64,
) -> u64
    ensures { result ∷ value.new ∷ [] ≡ query_numbers edition frame query second at id context.now }
{
    if config::edition_of(edition).is_none() {
        *value = 0;
        return 23;
    }
    let half = port_numbers::query::half_of(second);
    match query {
        1 => port_numbers::query::located(layout::utils::position(frame, at), value),
        2 => port_numbers::query::located(
            layout::utils::fresh_temporary(frame, half, context),
            value,
        ),
        3 => port_numbers::query::located(
            layout::utils::variable_temporary(frame, half, context, id),
            value,
        ),
        4 => port_numbers::query::measured(config::stack_offset(frame, at), value),
        5 => port_numbers::query::measured(config::field_offset(edition, half, at), value),
        _ => {
            *value = 0;
            3
        }
    }
}
