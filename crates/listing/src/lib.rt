// The text listing of instruction records.
#![tactic(auto)]

mod lines; // the lines, the header and the refusal
mod names; // the 44 names

ghost use Rattle.std.specs.Prelude.{◌≡◌, ◌≤◌, length};
ghost use Rattle.records.specs.Answers.{AnswersBy};
ghost use Rattle.records.specs.Bytes.{stored};
ghost use Rattle.listing.specs.declared.NotListed.TheVariants.{Malformed as TheMalformed};
ghost use Rattle.listing.specs.Names.{code_names};
ghost use Rattle.listing.specs.Listing.{listed, listed_text, listing_cause, printed_listing, longest_listing};

use records::check::Malformed;
use records::code;

// No more bytes than this are printed.
pub const LONGEST: usize = 382229;

// Why there is no listing.
#[derive(Clone, Copy, Debug, PartialEq, Eq)]
pub enum NotListed {
    Malformed(usize), // cause 2: the place of the first bad or surplus record
    Short(usize), // cause 10: how many bytes are needed
}

impl From<Malformed> for NotListed {
    ghost from_gives = { λ m r. r ≡ TheMalformed m.place };

    fn from(malformed: Malformed) -> NotListed {
        NotListed::Malformed(malformed.place)
    }
}

// The listing of at most 2,730 records, at the start of `text`: how many bytes were written.
pub fn list_records(records: &[u8], text: &mut [u8]) -> Result<usize, NotListed>
    ensures answer { AnswersBy listing_cause result (listed code_names records.now (length text.old)) }
    ensures written { text.new ≡ stored text.old 0 (listed_text code_names records.now) }
{
    let count = code::check_codes(records, 2730)?;
    let mut none = [0u8; 1];
    let size = lines::put_listing(&mut none, records, count);
    if text.len() < size {
        return Err(NotListed::Short(size));
    }
    lines::put_listing(text, records, count);
    Ok(size)
}

// What the lister prints, at the start of `text` where it fits whole. Answers how many bytes it is.
pub fn print_records(records: &[u8], text: &mut [u8]) -> usize
    ensures size { result ≡ length (printed_listing code_names records.now) }
    ensures bound { result ≤ longest_listing }
    ensures written { text.new ≡ stored text.old 0 (printed_listing code_names records.now) }
{
    let mut none = [0u8; 1];
    let size = lines::put_printed(&mut none, records);
    if text.len() < size {
        return size;
    }
    lines::put_printed(text, records)
}
