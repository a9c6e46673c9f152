// The lines of a listing, its header, and the line of a refusal.
ghost use Rattle.std.specs.Prelude.{◌≡◌, ◌+◌, ◌*◌, ◌≤◌, Ok};
ghost use Rattle.listing.specs.Names.{code_names};
ghost use Rattle.listing.specs.Listing.{operands_text, line, lines, listing, checked_list, listing_refusal, printed_listing, longest_listing};
ghost use Rattle.text.specs.Putting.{farthest, Puts};

use crate::names;
use records::code;
use records::code::Fields;

// The five fields after the name.
fn put_operands(text: &mut [u8], at: usize, f: Fields) -> usize
    requires { at + 107 ≤ farthest }
    ensures { Puts 107 text.old at text.new result (operands_text f) }
{
    let a = text::put_spaced(text, at, f.a as u64);
    let b = text::put_spaced(text, a, f.b as u64);
    let label = text::put_spaced(text, b, f.label as u64);
    let offset = text::put_spaced_signed(text, label, f.offset);
    text::put_spaced_signed(text, offset, f.value)
}

fn put_line(text: &mut [u8], at: usize, place: usize, f: Fields) -> usize
    requires { (1 ≤ f.code) × (f.code ≤ 44) × (at + 140 ≤ farthest) }
    ensures { Puts 140 text.old at text.new result (line code_names place f) }
{
    let name = text::put_decimal(text, at, place as u64);
    let operands = names::put_spaced_name(text, name, f.code);
    let end = put_operands(text, operands, f);
    text::put_byte(text, end, b'\n')
}

fn put_lines(text: &mut [u8], at: usize, records: &[u8], count: usize) -> usize
    requires { (checked_list records.now ≡ Ok count) × (at + 140 * count ≤ farthest) }
    ensures { Puts (140 * count) text.old at text.new result (lines code_names records.now count) }
{
    let mut next = at;
    for k in 0..count {
        next = put_line(text, next, k + 1, code::fields_at(records, 24 * k));
    }
    next
}

// The listing of well-formed records, from the start of `text`.
pub fn put_listing(text: &mut [u8], records: &[u8], count: usize) -> usize
    requires { checked_list records.now ≡ Ok count }
    ensures { Puts longest_listing text.old 0 text.new result (listing code_names records.now count) }
{
    let word = text::put_decimal(text, 0, count as u64);
    let lines = text::put_bytes(text, word, b" records\n");
    put_lines(text, lines, records, count)
}

fn put_refusal(text: &mut [u8], place: usize) -> usize
    ensures { Puts 23 text.old 0 text.new result (listing_refusal place) }
{
    let at = text::put_bytes(text, 0, b"2 ");
    let end = text::put_decimal(text, at, place as u64);
    text::put_byte(text, end, b'\n')
}

// The listing, or the refusal where the list is malformed.
pub fn put_printed(text: &mut [u8], records: &[u8]) -> usize
    ensures { Puts longest_listing text.old 0 text.new result (printed_listing code_names records.now) }
{
    match code::check_codes(records, 2730) {
        Ok(count) => put_listing(text, records, count),
        Err(malformed) => put_refusal(text, malformed.place),
    }
}
