// The line of each variable.
ghost use Rattle.std.specs.Prelude.{◌≡◌, ◌++◌, ◌+◌, ◌*◌, ◌≤◌, ◌<◌, length};
ghost use Rattle.text.specs.Text.{ascii, signed_decimal};
ghost use Rattle.text.specs.Putting.{farthest, Puts};
ghost use Rattle.layout.specs.Config.{Supported, larger, positions, most_variables, stack_depth};
ghost use Rattle.layout.specs.Positions.{location, Table, entries};
ghost use Rattle.layout.specs.Frame.{held_in};
ghost use Rattle.machine_step.specs.View.{words_of, from_end};
ghost use Rattle.machine_step.specs.Forms.{Sized};
ghost use Rattle.heap.specs.Blocks.{cell};
ghost use Rattle.report_state.specs.Cells.{block_name, cell_words, cell_line, variable_line, first_lines, variable_lines, variables_on};

use layout::config::Shape;
use layout::utils::ENTRIES;
use report::parts;

fn put_block(text: &mut [u8], at: usize, g: Shape, pointer: u64) -> usize
    requires { (at + 28 ≤ farthest) × Supported g }
    ensures { Puts 28 text.old at text.new result (block_name g pointer) }
{
    if pointer == 0 {
        return text::put_bytes(text, at, b", empty");
    }
    let bytes = layout::offset::fst_offset(g.fields);
    let block = pointer.saturating_sub(65536) / bytes;
    parts::put_count(text, at, b", block ", block)
}

fn put_object(text: &mut [u8], at: usize, g: Shape, pointer: u64, tag: u64) -> usize
    requires { (at + 62 ≤ farthest) × Supported g }
    ensures { Puts 62 text.old at text.new result (ascii " object, tag " ++ signed_decimal tag ++ block_name g pointer) }
{
    let tagged = text::put_bytes(text, at, b" object, tag ");
    let next = text::put_signed(text, tagged, tag);
    put_block(text, next, g, pointer)
}

fn put_integer(text: &mut [u8], at: usize, integer: u64) -> usize
    requires { at + 30 ≤ farthest }
    ensures { Puts 30 text.old at text.new result (ascii " integer " ++ signed_decimal integer) }
{
    let next = text::put_bytes(text, at, b" integer ");
    text::put_signed(text, next, integer)
}

fn put_value(text: &mut [u8], at: usize, g: Shape, ext: bool, pointer: u64, word: u64) -> usize
    requires { (at + 62 ≤ farthest) × Supported g }
    ensures { Puts 62 text.old at text.new result (cell_words g ext (cell pointer word)) }
{
    if ext {
        return put_integer(text, at, word);
    }
    put_object(text, at, g, pointer, word)
}

fn put_cell(
    text: &mut [u8],
    at: usize,
    g: Shape,
    place: u64,
    ext: bool,
    pointer: u64,
    word: u64,
) -> usize
    requires { (at + 83 ≤ farthest) × Supported g }
    ensures { Puts 83 text.old at text.new result (cell_line g place ext (cell pointer word)) }
{
    let value = text::put_decimal(text, at, place);
    let end = put_value(text, value, g, ext, pointer, word);
    text::put_byte(text, end, b'\n')
}

// The word at position p.
pub fn word_at(registers: &[u64], stack: &[u64], table: &[u16; ENTRIES], p: u64) -> u64
    requires { (length registers.now ≡ 16) × (p < length stack.now) × Table table.now × (p < entries) }
    ensures { result ≡ held_in (words_of registers.now) (from_end stack.now) (location p) }
{
    let l = layout::utils::location_at(table, p);
    if l < 16 {
        return registers[l as usize];
    }
    let k = (l - 9) as usize;
    stack[stack.len() - 1 - k]
}

fn put_variable(
    text: &mut [u8],
    at: usize,
    g: Shape,
    context: &[u8],
    registers: &[u64],
    stack: &[u64],
    table: &[u16; ENTRIES],
    k: usize,
) -> usize
    requires { (8 * k + 8 ≤ length context.now) × (2 * k + 1 < positions g) × Sized (stack_depth g) registers.now stack.now × Table table.now × (at + 83 ≤ farthest) × Supported g }
    ensures { Puts 83 text.old at text.new result (variable_line g context.now registers.now stack.now k) }
{
    let place = k as u64;
    let pointer = word_at(registers, stack, table, 2 * place);
    let word = word_at(registers, stack, table, 2 * place + 1);
    let ext = layout::utils::is_ext(context, place);
    put_cell(text, at, g, place, ext, pointer, word)
}

// The first of a context's variables.
fn put_first(
    text: &mut [u8],
    at: usize,
    g: Shape,
    context: &[u8],
    registers: &[u64],
    stack: &[u64],
    table: &[u16; ENTRIES],
    count: usize,
) -> usize
    requires { (8 * count ≤ length context.now) × (2 * count < positions g) × Sized (stack_depth g) registers.now stack.now × Table table.now × (at + 83 * count ≤ farthest) × Supported g }
    ensures { Puts (83 * count) text.old at text.new result (first_lines g context.now registers.now stack.now count) }
{
    let mut next = at;
    for k in 0..count {
        next = put_variable(text, next, g, context, registers, stack, table, k);
    }
    next
}

// The line of each variable of a context on registers and a frame's stack, its blocks an edition's; nothing where the context is malformed or has more than
// there are positions for, or the stack another number of words.
pub fn put_variables(
    text: &mut [u8],
    at: usize,
    edition: u64,
    frame: u64,
    context: &[u8],
    registers: &[u64; 16],
    stack: &[u64],
) -> usize
    requires { at + 83 * most_variables larger ≤ farthest }
    ensures { Puts (83 * most_variables larger) text.old at text.new result (variables_on edition frame context.now registers.now stack.now) }
{
    match layout::config::shape_on(edition, frame, stack.len()) {
        Ok(g) => put_variables_in(text, at, g, context, registers, stack),
        Err(_) => at,
    }
}

fn put_variables_in(
    text: &mut [u8],
    at: usize,
    g: Shape,
    context: &[u8],
    registers: &[u64],
    stack: &[u64],
) -> usize
    requires { Sized (stack_depth g) registers.now stack.now × (at + 83 * most_variables g ≤ farthest) × Supported g }
    ensures { Puts (83 * most_variables g) text.old at text.new result (variable_lines g context.now registers.now stack.now) }
{
    let limit = g.spills + 11;
    let Ok(count) = records::context::check_context(context) else {
        return at;
    };
    if limit <= 2 * (count as u64) {
        return at;
    }
    let table = layout::utils::positions();
    put_first(text, at, g, context, registers, stack, &table, count)
}
