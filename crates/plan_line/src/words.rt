// The words of a line, found by their indices.
ghost use Rattle.std.specs.Prelude.{◌≡◌, ◌≤◌, length, position};
ghost use Rattle.plan_line.specs.Words.{blank, sought_in, found};
ghost use Rattle.plan_line.specs.Finding.{NextWord, WordAt};

// What a search in bytes stops at.
#[derive(Clone, Copy)]
pub enum Sought {
    Byte(u8),
    Blank,
    Letter, // anything but a blank
}

fn is_blank(b: u8) -> bool
    ensures { result ≡ blank b }
{
    matches!(b, 9 | 13 | 32)
}

fn stops(sought: Sought, b: u8) -> bool
    ensures { result ≡ sought_in sought b }
{
    match sought {
        Sought::Byte(m) => b == m,
        Sought::Blank => is_blank(b),
        Sought::Letter => !is_blank(b),
    }
}

fn first(s: &[u8], sought: Sought) -> Option<usize>
    ensures { result ≡ position (sought_in sought) s.now }
{
    s.iter().position(|b| stops(sought, *b))
}

// The first index from `at` on of what is sought, or the length.
pub fn find(s: &[u8], at: usize, sought: Sought) -> usize
    requires { at ≤ length s.now }
    ensures { result ≡ found (sought_in sought) s.now at }
{
    match first(&s[at..], sought) {
        Some(i) => at + i,
        None => s.len(),
    }
}

// The first word from index `at` on: where it starts and ends.
pub fn next_word(line: &[u8], at: usize) -> Option<(usize, usize)>
    requires { at ≤ length line.now }
    ensures { NextWord line.now at result }
{
    let start = find(line, at, Sought::Letter);
    if start < line.len() {
        Some((start, find(line, start, Sought::Blank)))
    } else {
        None
    }
}

// Word k of a line, from 0.
pub fn word_at(line: &[u8], k: usize) -> Option<(usize, usize)>
    ensures { WordAt line.now k result }
{
    let mut at = 0;
    for _ in 0..k {
        let (_, end) = next_word(line, at)?;
        at = end;
    }
    next_word(line, at)
}
