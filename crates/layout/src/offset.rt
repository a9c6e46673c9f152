// Offsets as the emitters ask for them, of operands and fields that they have checked. config.rs's own forms refuse the others.
ghost use Rattle.std.specs.Prelude.{◌≡◌, ◌≤◌, ◌<◌};
ghost use Rattle.layout.specs.Config.{Supported, operands, stack_offset, fst_offset, snd_offset};

use crate::config::Shape;

// From STACK, of the spill that an operand names; spill 0 too, which a load borrows.
pub fn spill_offset(g: Shape, w: u64) -> u64
    requires { (16 ≤ w) × (w < operands g) × Supported g }
    ensures { result ≡ stack_offset g w }
{
    8 * g.spills - 8 * (w - 16 + 1)
}

// In a block, of field i's two words.
pub fn fst_offset(i: u64) -> u64
    requires { i < 65536 }
    ensures { result ≡ fst_offset i }
{
    16 + 16 * i
}

pub fn snd_offset(i: u64) -> u64
    requires { i < 65536 }
    ensures { result ≡ snd_offset i }
{
    24 + 16 * i
}
