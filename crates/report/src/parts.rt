// Parts of lines.
ghost use Rattle.std.specs.Prelude.{◌++◌, ◌+◌, ◌-◌, ◌≤◌, length};
ghost use Rattle.text.specs.Text.{decimal};
ghost use Rattle.text.specs.Putting.{farthest, Puts};

// Words, then a number.
pub fn put_count(text: &mut [u8], at: usize, words: &[u8], number: u64) -> usize
    requires { at + length words.now + 20 ≤ farthest }
    ensures { Puts (length words.now + 20) text.old at text.new result (words.now ++ decimal number) }
{
    let next = text::put_bytes(text, at, words);
    text::put_decimal(text, next, number)
}
