// The number by which the processor encodes each register.
ghost use Rattle.std.specs.Prelude.{◌≡◌};
ghost use Rattle.records.specs.Registers.{hardware_of};

// In the Rust's sequence: rsp, rcx, rbx, rbp, rax, rdx, rsi, rdi, r8 to r15.
const HARDWARE: [u8; 16] = [4, 1, 3, 5, 0, 2, 6, 7, 8, 9, 10, 11, 12, 13, 14, 15];

pub fn hardware_number(register: u8) -> Option<u8>
    ensures { result ≡ hardware_of register }
{
    if 16 <= register {
        return None;
    }
    Some(HARDWARE[register as usize])
}
