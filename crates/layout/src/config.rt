// Registers, spills and offsets, from config.rs.
ghost use Rattle.std.specs.Prelude.{◌≡◌, ◌≤◌, Err};
ghost use Rattle.records.specs.Answers.{AnswersBy};
ghost use Rattle.layout.specs.Config.{Supported, base, larger, second, block_words, frame_of, frame_on, edition_of, combined, shape_of, shape_on, in_frame, in_edition};
ghost use Rattle.layout.specs.declared.config.NoOffset.TheVariants.{Operand, Edition};
ghost use Rattle.layout.specs.Queries.{spill_offset, field_offset, offset_cause};

use crate::offset;
use crate::utils::TemporaryNumber;

// What an edition and a frame fix: how many fields a block has, and how many spills a frame.
#[derive(Clone, Copy)]
pub struct Shape {
    pub fields: u64,
    pub spills: u64,
}

// The first edition's blocks, and the frame of 256 spills.
pub fn base() -> Shape
    ensures { (result ≡ base) × Supported result }
{
    Shape {
        fields: 3,
        spills: 256,
    }
}

// How many words a block has.
pub fn block_words(g: Shape) -> u64
    requires { Supported g }
    ensures { (result ≡ block_words g) × (2 ≤ result) × (result ≤ 16) }
{
    2 + 2 * g.fields
}

// The same blocks in the frame of 512 spills.
pub fn larger() -> Shape
    ensures { (result ≡ larger) × Supported result }
{
    let g = base();
    Shape {
        fields: g.fields,
        spills: 512,
    }
}

// The second edition's blocks, and the frame of 256 spills.
pub fn second() -> Shape
    ensures { (result ≡ second) × Supported result }
{
    let g = base();
    Shape {
        fields: 7,
        spills: g.spills,
    }
}

// The shape of a frame by its number of spills, with the first edition's blocks: for what does not depend on the edition.
pub fn frame_of(frame: u64) -> Option<Shape>
    ensures { result ≡ frame_of frame }
{
    if frame == 256 {
        return Some(base());
    }
    if frame == 512 {
        return Some(larger());
    }
    None
}

// The same where a stack of so many words goes with the frame.
pub fn frame_on(frame: u64, words: usize) -> Option<Shape>
    ensures { result ≡ frame_on frame words }
{
    let g = frame_of(frame)?;
    if words as u64 == g.spills + 64 {
        Some(g)
    } else {
        None
    }
}

// The shape of an edition by its number, with the smaller frame: for what does not depend on the frame.
pub fn edition_of(edition: u64) -> Option<Shape>
    ensures { result ≡ edition_of edition }
{
    if edition == 1 {
        return Some(base());
    }
    if edition == 2 {
        return Some(second());
    }
    None
}

// Why an edition and a frame have no shape: there is no such edition, or else no such frame.
#[derive(Clone, Copy, Debug, PartialEq, Eq)]
pub enum Unshaped {
    NoFrame,
    NoEdition,
}

// The blocks of the one and the frame of the other.
fn combined(edition: Option<Shape>, frame: Option<Shape>) -> Result<Shape, Unshaped>
    ensures { result ≡ combined edition frame }
{
    let b = edition.ok_or(Unshaped::NoEdition)?;
    let f = frame.ok_or(Unshaped::NoFrame)?;
    Ok(Shape {
        fields: b.fields,
        spills: f.spills,
    })
}

// The shape of an edition and a frame by their numbers.
pub fn shape_of(edition: u64, frame: u64) -> Result<Shape, Unshaped>
    ensures { result ≡ shape_of edition frame }
{
    combined(edition_of(edition), frame_of(frame))
}

// The same where a stack of so many words goes with the frame.
pub fn shape_on(edition: u64, frame: u64, words: usize) -> Result<Shape, Unshaped>
    ensures { result ≡ shape_on edition frame words }
{
    combined(edition_of(edition), frame_on(frame, words))
}

pub const STACK: u8 = 0;

pub const TEMP: u8 = 1;

pub const HEAP: u8 = 2;

pub const FREE: u8 = 3;

pub const RETURN1: u8 = 4;

pub const RETURN2: u8 = 5;

// The spill that holds register 4 while a load borrows it.
pub const SPILL_TEMP: u64 = 16;

// Minus one as 64 bits.
pub const MINUS_ONE: u64 = 18446744073709551615;

// Why a word has no offset. Operand, 3: no caller's spill, no frame of so many, or no field of a block; Edition, 23: no such edition.
#[derive(Clone, Copy, Debug, PartialEq, Eq)]
pub enum NoOffset {
    Operand,
    Edition,
}

// The offset from STACK of the spill, from 1, that an operand names in a frame.
pub fn stack_offset(frame: u64, w: u64) -> Result<u64, NoOffset>
    ensures { AnswersBy offset_cause result (in_frame frame (λ g. spill_offset g w) (Err Operand)) }
{
    let g = frame_of(frame).ok_or(NoOffset::Operand)?;
    stack_offset_in(g, w)
}

fn stack_offset_in(g: Shape, w: u64) -> Result<u64, NoOffset>
    requires { Supported g }
    ensures { AnswersBy offset_cause result (spill_offset g w) }
{
    if w <= 16 || g.spills <= w - 16 {
        return Err(NoOffset::Operand);
    }
    Ok(offset::spill_offset(g, w))
}

// The offset of a field's first or second word in an edition's block.
pub fn field_offset(edition: u64, number: TemporaryNumber, field: u64) -> Result<u64, NoOffset>
    ensures { AnswersBy offset_cause result (in_edition edition (λ g. field_offset g number field) (Err Edition)) }
{
    let g = edition_of(edition).ok_or(NoOffset::Edition)?;
    field_offset_in(g, number, field)
}

fn field_offset_in(g: Shape, number: TemporaryNumber, field: u64) -> Result<u64, NoOffset>
    requires { Supported g }
    ensures { AnswersBy offset_cause result (field_offset g number field) }
{
    if g.fields <= field {
        return Err(NoOffset::Operand);
    }
    Ok(match number {
        TemporaryNumber::Fst => offset::fst_offset(field),
        TemporaryNumber::Snd => offset::snd_offset(field),
    })
}
