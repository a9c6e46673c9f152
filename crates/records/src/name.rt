// Labels and names by their numbers, and the largest count.
// The last fresh label.
pub const LAST_LABEL: u64 = 2147483647;

pub const ASM_MAIN: u32 = 2147483648;

pub const CLEANUP: u32 = 2147483649;

pub const PRINT_I64: u32 = 2147483650;

pub const PRINTLN_I64: u32 = 2147483651;

// 2^31 plus 4 to 15: no label and no name.
pub const FIRST_UNNAMED: u32 = 2147483652;

pub const LAST_UNNAMED: u32 = 2147483663;

// A share's count, and a copy's, is at most this.
pub const MOST_COUNT: u64 = 2147483647;
