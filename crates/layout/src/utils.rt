// Where the variables stand, from utils.rs.
ghost use Rattle.std.specs.Prelude.{◌≡◌, cond, ◌+◌, ◌*◌, ◌<◌, ◌≤◌, ltb, length, drop, Err};
ghost use Rattle.records.specs.Answers.{AnswersBy};
ghost use Rattle.records.specs.Contexts.{binding_in, ext_at};
ghost use Rattle.layout.specs.declared.utils.NoTemporary.TheVariants.{Context, Frame, Missing};
ghost use Rattle.layout.specs.Config.{Supported, positions, in_frame, register_for};
ghost use Rattle.layout.specs.Positions.{location, entries, Table, operand_ok, position_answer, temporary_cause};
ghost use Rattle.layout.specs.Queries.{half_number, id_place, fresh_temporary, variable_temporary, unframed_temporary};

use crate::config;
use crate::config::{Shape, TEMP};
use records::context::Flaw;

// How many positions the largest frame has.
pub const ENTRIES: usize = 523;

// The operand of each position: registers 4 to 15, then the spills from 1. Where a frame ends, its positions do.
const POSITIONS: [u16; ENTRIES] = [
    4, 5, 6, 7, 8, 9, 10, 11, 12, 13, 14, 15, 17, 18, 19, 20, 21, 22, 23, 24, 25, 26, 27, 28, 29,
    30, 31, 32, 33, 34, 35, 36, 37, 38, 39, 40, 41, 42, 43, 44, 45, 46, 47, 48, 49, 50, 51, 52, 53,
    54, 55, 56, 57, 58, 59, 60, 61, 62, 63, 64, 65, 66, 67, 68, 69, 70, 71, 72, 73, 74, 75, 76, 77,
    78, 79, 80, 81, 82, 83, 84, 85, 86, 87, 88, 89, 90, 91, 92, 93, 94, 95, 96, 97, 98, 99, 100,
    101, 102, 103, 104, 105, 106, 107, 108, 109, 110, 111, 112, 113, 114, 115, 116, 117, 118, 119,
    120, 121, 122, 123, 124, 125, 126, 127, 128, 129, 130, 131, 132, 133, 134, 135, 136, 137, 138,
    139, 140, 141, 142, 143, 144, 145, 146, 147, 148, 149, 150, 151, 152, 153, 154, 155, 156, 157,
    158, 159, 160, 161, 162, 163, 164, 165, 166, 167, 168, 169, 170, 171, 172, 173, 174, 175, 176,
    177, 178, 179, 180, 181, 182, 183, 184, 185, 186, 187, 188, 189, 190, 191, 192, 193, 194, 195,
    196, 197, 198, 199, 200, 201, 202, 203, 204, 205, 206, 207, 208, 209, 210, 211, 212, 213, 214,
    215, 216, 217, 218, 219, 220, 221, 222, 223, 224, 225, 226, 227, 228, 229, 230, 231, 232, 233,
    234, 235, 236, 237, 238, 239, 240, 241, 242, 243, 244, 245, 246, 247, 248, 249, 250, 251, 252,
    253, 254, 255, 256, 257, 258, 259, 260, 261, 262, 263, 264, 265, 266, 267, 268, 269, 270, 271,
    272, 273, 274, 275, 276, 277, 278, 279, 280, 281, 282, 283, 284, 285, 286, 287, 288, 289, 290,
    291, 292, 293, 294, 295, 296, 297, 298, 299, 300, 301, 302, 303, 304, 305, 306, 307, 308, 309,
    310, 311, 312, 313, 314, 315, 316, 317, 318, 319, 320, 321, 322, 323, 324, 325, 326, 327, 328,
    329, 330, 331, 332, 333, 334, 335, 336, 337, 338, 339, 340, 341, 342, 343, 344, 345, 346, 347,
    348, 349, 350, 351, 352, 353, 354, 355, 356, 357, 358, 359, 360, 361, 362, 363, 364, 365, 366,
    367, 368, 369, 370, 371, 372, 373, 374, 375, 376, 377, 378, 379, 380, 381, 382, 383, 384, 385,
    386, 387, 388, 389, 390, 391, 392, 393, 394, 395, 396, 397, 398, 399, 400, 401, 402, 403, 404,
    405, 406, 407, 408, 409, 410, 411, 412, 413, 414, 415, 416, 417, 418, 419, 420, 421, 422, 423,
    424, 425, 426, 427, 428, 429, 430, 431, 432, 433, 434, 435, 436, 437, 438, 439, 440, 441, 442,
    443, 444, 445, 446, 447, 448, 449, 450, 451, 452, 453, 454, 455, 456, 457, 458, 459, 460, 461,
    462, 463, 464, 465, 466, 467, 468, 469, 470, 471, 472, 473, 474, 475, 476, 477, 478, 479, 480,
    481, 482, 483, 484, 485, 486, 487, 488, 489, 490, 491, 492, 493, 494, 495, 496, 497, 498, 499,
    500, 501, 502, 503, 504, 505, 506, 507, 508, 509, 510, 511, 512, 513, 514, 515, 516, 517, 518,
    519, 520, 521, 522, 523, 524, 525, 526, 527,
];

// Why there is no operand.
#[derive(Clone, Copy, Debug, PartialEq, Eq)]
pub enum NoTemporary {
    Context(Flaw),
    Frame,
    Missing,
    OutOfTemporaries,
}

impl From<Flaw> for NoTemporary {
    ghost from_gives = { λ flaw r. r ≡ Context flaw };

    fn from(flaw: Flaw) -> NoTemporary {
        NoTemporary::Context(flaw)
    }
}

#[derive(Clone, Copy)]
pub enum TemporaryNumber {
    Fst,
    Snd,
}

fn number_of(number: TemporaryNumber) -> u64
    ensures { (result ≡ half_number number) × (result ≤ 1) }
{
    match number {
        TemporaryNumber::Fst => 0,
        TemporaryNumber::Snd => 1,
    }
}

// The table, to be taken once and lent: a constant array is made anew at each mention.
pub fn positions() -> [u16; ENTRIES]
    ensures { Table result }
{
    POSITIONS
}

// The operand of a position, by the table.
pub fn location_at(table: &[u16; ENTRIES], p: u64) -> u64
    requires { (Table table.now) × (p < entries) }
    ensures { (result ≡ location p) × (result ≤ p + 5) }
{
    u64::from(table[p as usize])
}

// The same by the rule, for emitters: to take the table costs as much as to write ten records.
pub fn location_of(p: u64) -> u64
    requires { p < entries }
    ensures { (result ≡ location p) × (result ≤ p + 5) }
{
    if p < 12 { p + 4 } else { p + 5 }
}

// The operand of a position in a frame of so many spills.
pub fn position(frame: u64, p: u64) -> Result<u64, NoTemporary>
    ensures { AnswersBy temporary_cause result (in_frame frame (λ g. position_answer g p) (Err Frame)) }
{
    let g = config::frame_of(frame).ok_or(NoTemporary::Frame)?;
    position_in(g, p)
}

fn position_in(g: Shape, p: u64) -> Result<u64, NoTemporary>
    requires { Supported g }
    ensures { AnswersBy temporary_cause result (position_answer g p) }
{
    if g.spills + 11 <= p {
        return Err(NoTemporary::OutOfTemporaries);
    }
    let table = positions();
    Ok(location_at(&table, p))
}

// Whether a caller may give the word as an operand.
pub fn operand_ok(g: Shape, w: u64) -> bool
    ensures { result ≡ operand_ok g w }
{
    4 <= w && (w < 16 || w - 16 < g.spills && 16 < w)
}

// The register that has the word of operand w, once that is in one.
pub fn register_for(w: u64) -> u8
    ensures { result ≡ register_for w }
{
    if w < 16 { w as u8 } else { TEMP }
}

// Whether binding i is an integer's.
pub fn is_ext(context: &[u8], i: u64) -> bool
    requires { 8 * i + 8 ≤ length context.now }
    ensures { result ≡ ext_at context.now i }
{
    let at = (8 * i + 2) as usize;
    context[at] == 1
}

fn id_at(context: &[u8], k: usize) -> u32
    requires { 8 * k + 8 ≤ length context.now }
    ensures { result ≡ (binding_in (drop (8 * k) context.now)).id }
{
    let b = records::binding::binding_at(context, 8 * k);
    b.id
}

// The place of the first of n bindings that has the id, or n.
fn id_place(context: &[u8], id: u32, n: usize) -> usize
    requires { 8 * n ≤ length context.now }
    ensures { (result ≡ id_place context.now id 0 n) × (result ≤ n) }
{
    for k in 0..n {
        if id_at(context, k) == id {
            return k;
        }
    }
    n
}

// What a frame of another number of spills is answered.
fn unframed(context: &[u8]) -> Result<u64, NoTemporary>
    ensures { AnswersBy temporary_cause result (unframed_temporary context.now) }
{
    records::context::check_context(context)?;
    Err(NoTemporary::Frame)
}

// The temporary past the context's last variable.
pub fn fresh_temporary(
    frame: u64,
    number: TemporaryNumber,
    context: &[u8],
) -> Result<u64, NoTemporary>
    ensures { AnswersBy temporary_cause result (in_frame frame (λ g. fresh_temporary g number context.now) (unframed_temporary context.now)) }
{
    let Some(g) = config::frame_of(frame) else {
        return unframed(context);
    };
    fresh_temporary_in(g, number, context)
}

fn fresh_temporary_in(g: Shape, number: TemporaryNumber, context: &[u8]) -> Result<u64, NoTemporary>
    requires { Supported g }
    ensures { AnswersBy temporary_cause result (fresh_temporary g number context.now) }
{
    let n = records::context::check_context(context)?;
    position_in(g, 2 * (n as u64) + number_of(number))
}

// The temporary of the first variable that has the id.
pub fn variable_temporary(
    frame: u64,
    number: TemporaryNumber,
    context: &[u8],
    id: u32,
) -> Result<u64, NoTemporary>
    ensures { AnswersBy temporary_cause result (in_frame frame (λ g. variable_temporary g number context.now id) (unframed_temporary context.now)) }
{
    let Some(g) = config::frame_of(frame) else {
        return unframed(context);
    };
    variable_temporary_in(g, number, context, id)
}

fn variable_temporary_in(
    g: Shape,
    number: TemporaryNumber,
    context: &[u8],
    id: u32,
) -> Result<u64, NoTemporary>
    requires { Supported g }
    ensures { AnswersBy temporary_cause result (variable_temporary g number context.now id) }
{
    let n = records::context::check_context(context)?;
    placed(g, id_place(context, id, n), n, number_of(number))
}

fn placed(g: Shape, k: usize, n: usize, half: u64) -> Result<u64, NoTemporary>
    requires { (k ≤ n) × ((n ≤ 4096) × (half ≤ 1)) × Supported g }
    ensures { result ≡ cond (ltb k n) (position_answer g (2 * k + half)) (Err Missing) }
{
    if k < n {
        position_in(g, 2 * (k as u64) + half)
    } else {
        Err(NoTemporary::Missing)
    }
}
