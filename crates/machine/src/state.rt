// The machine's state.
ghost use Rattle.std.specs.Prelude.{◌≡◌};
ghost use Rattle.layout.specs.Config.{Supported, base};
ghost use Rattle.machine.specs.State.{entry_registers, entry_state, fresh_registers, fresh_state};

use layout::config;
use layout::config::Shape;

// The words of the smaller frame's stack.
pub const DEPTH: usize = 320;

#[derive(Clone, Copy)]
pub struct State {
    pub registers: [u64; 16],
    pub stack: [u64; DEPTH],
}

// The registers with which a routine is entered: the heap's address in register 7.
pub fn entry_registers() -> [u64; 16]
    ensures { result ≡ entry_registers }
{
    [
        1099511627768,
        0,
        0,
        0,
        0,
        0,
        0,
        65536,
        0,
        0,
        0,
        0,
        0,
        0,
        0,
        0,
    ]
}

// The state then.
pub fn entry() -> State
    ensures { result ≡ entry_state base }
{
    State {
        registers: entry_registers(),
        stack: [0; 320],
    }
}

// The registers after the records before the body of a routine with no argument.
pub fn fresh_registers(g: Shape) -> [u64; 16]
    requires { Supported g }
    ensures { result ≡ fresh_registers g }
{
    [
        1099511627720 - 8 * g.spills,
        0,
        65536,
        65536 + (16 + 16 * g.fields),
        0,
        0,
        0,
        65536,
        0,
        0,
        0,
        0,
        0,
        0,
        0,
        0,
    ]
}

// The state then.
pub fn fresh() -> State
    ensures { result ≡ fresh_state base }
{
    State {
        registers: fresh_registers(config::base()),
        stack: [0; 320],
    }
}
