// What is wrong with a line, in words.
ghost use Rattle.std.specs.Prelude.{◌+◌, ◌≤◌};
ghost use Rattle.text.specs.Putting.{farthest, Puts};
ghost use Rattle.plan.specs.Messages.{wrong_words, message};

use plan_line::wrong::Wrong;

fn put_cause(text: &mut [u8], at: usize, wrong: Wrong) -> usize
    requires { at + 31 ≤ farthest }
    ensures { Puts 31 text.old at text.new result (wrong_words wrong) }
{
    match wrong {
        Wrong::NoSuchOrder => text::put_bytes(text, at, b"no such order"),
        Wrong::NoSuchOperation => text::put_bytes(text, at, b"no such operation"),
        Wrong::NotNumber => text::put_bytes(text, at, b"a number is expected"),
        Wrong::OutOfRange => text::put_bytes(text, at, b"a number is out of range"),
        Wrong::NotTag => text::put_bytes(text, at, b"tag is expected"),
        Wrong::NotNewline => text::put_bytes(text, at, b"newline is expected"),
        Wrong::NotKind => text::put_bytes(text, at, b"a kind, e or l, is expected"),
        Wrong::TooManyKinds => text::put_bytes(text, at, b"more than 4096 kinds"),
        Wrong::MissingWord => text::put_bytes(text, at, b"a word is missing"),
        Wrong::SurplusWord => text::put_bytes(text, at, b"a word too many"),
    }
}

// The message of a bad line, and a newline.
pub fn put_message(text: &mut [u8], at: usize, line: usize, wrong: Wrong) -> usize
    requires { at + 59 ≤ farthest }
    ensures { Puts 59 text.old at text.new result (message line wrong) }
{
    let number = text::put_bytes(text, at, b"line ");
    let colon = text::put_decimal(text, number, line as u64);
    let cause = text::put_bytes(text, colon, b": ");
    let end = put_cause(text, cause, wrong);
    text::put_byte(text, end, b'\n')
}
