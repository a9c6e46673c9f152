// The edition and the frame that a program's words choose: `edition N` and `frame N`, each for the files named after it.
#![tactic(auto)]

pub mod named; // the files that a command line names

ghost use Rattle.std.specs.Prelude.{MatchOption, Some, true, false, ◌≡◌, ◌+◌, ◌≤◌};
ghost use Rattle.text.specs.Putting.{farthest, Puts};
ghost use Rattle.program_options.specs.Options.{at_first, one_of_two, with_edition, with_frame, chosen_edition, chosen_frame, chosen_any, heard, still_to_come, is_played, said_words};

// What the next word is: any, or the number of an edition or of a frame.
#[derive(Clone, Copy)]
pub enum Next {
    Any,
    Edition,
    Frame,
}

// What is chosen. A number is none while it is still to come, and where there is no edition or no frame of the number that came.
#[derive(Clone, Copy)]
pub struct Options {
    pub edition: Option<u64>,
    pub frame: Option<u64>,
    pub next: Next,
}

// What is to be said of a choice: that there is no edition or no frame of that number.
#[derive(Clone, Copy)]
pub enum Said {
    NoEdition,
    NoFrame,
}

// Of a word that chooses: what is chosen after it, and what is to be said of that, if anything.
pub type Heard = Option<(Options, Option<Said>)>;

// Before the first word.
pub fn at_first() -> Options
    ensures { result ≡ at_first }
{
    Options {
        edition: Some(1),
        frame: Some(256),
        next: Next::Any,
    }
}

#[derive(Clone, Copy)]
pub enum Which {
    First,
    Second,
}

// Which of two words a word is, if either.
fn one_of_two(word: &[u8], first: &[u8], second: &[u8]) -> Option<Which>
    ensures { result ≡ one_of_two word.now first.now second.now }
{
    if word == first {
        Some(Which::First)
    } else if word == second {
        Some(Which::Second)
    } else {
        None
    }
}

fn in_edition(o: Options, edition: Option<u64>, next: Next) -> Options
    ensures { result ≡ with_edition o edition next }
{
    Options { edition, next, ..o }
}

fn in_frame(o: Options, frame: Option<u64>, next: Next) -> Options
    ensures { result ≡ with_frame o frame next }
{
    Options { frame, next, ..o }
}

fn chosen_edition(o: Options, number: Option<Which>) -> Heard
    ensures { result ≡ chosen_edition o number }
{
    match number {
        Some(Which::First) => Some((in_edition(o, Some(1), Next::Any), None)),
        Some(Which::Second) => Some((in_edition(o, Some(2), Next::Any), None)),
        None => Some((in_edition(o, None, Next::Any), Some(Said::NoEdition))),
    }
}

fn chosen_frame(o: Options, number: Option<Which>) -> Heard
    ensures { result ≡ chosen_frame o number }
{
    match number {
        Some(Which::First) => Some((in_frame(o, Some(256), Next::Any), None)),
        Some(Which::Second) => Some((in_frame(o, Some(512), Next::Any), None)),
        None => Some((in_frame(o, None, Next::Any), Some(Said::NoFrame))),
    }
}

fn chosen_any(o: Options, name: Option<Which>) -> Heard
    ensures { result ≡ chosen_any o name }
{
    match name? {
        Which::First => Some((in_edition(o, None, Next::Edition), None)),
        Which::Second => Some((in_frame(o, None, Next::Frame), None)),
    }
}

// One word of a command line, where it chooses.
pub fn hear(word: &[u8], o: Options) -> Heard
    ensures { result ≡ heard word.now o }
{
    match o.next {
        Next::Any => chosen_any(o, one_of_two(word, b"edition", b"frame")),
        Next::Edition => chosen_edition(o, one_of_two(word, b"1", b"2")),
        Next::Frame => chosen_frame(o, one_of_two(word, b"256", b"512")),
    }
}

// What is to be said where no word follows.
pub fn still_to_come(o: Options) -> Option<Said>
    ensures { result ≡ still_to_come o }
{
    match o.next {
        Next::Any => None,
        Next::Edition => Some(Said::NoEdition),
        Next::Frame => Some(Said::NoFrame),
    }
}

// The edition and the frame that a list is played in, where there are such.
pub fn played_in(o: Options) -> Option<(u64, u64)>
    ensures { MatchOption result (is_played o ≡ false) (λ p. (is_played o ≡ true) × (o.edition ≡ Some p.0) × (o.frame ≡ Some p.1)) }
{
    Some((o.edition?, o.frame?))
}

pub fn put_said(text: &mut [u8], at: usize, said: Option<Said>) -> usize
    requires { at + 30 ≤ farthest }
    ensures { Puts 30 text.old at text.new result (said_words said) }
{
    let Some(what) = said else {
        return at;
    };
    match what {
        Said::NoEdition => text::put_bytes(text, at, b"an edition is 1 or 2\n"),
        Said::NoFrame => text::put_bytes(text, at, b"a frame has 256 or 512 spills\n"),
    }
}
