// What programs take from outside: the words of the command line, files by their names, bytes as far as there is room; and what is said of a file that
// cannot be opened. A read or a write that fails is none: no program ends by it.
#![tactic(auto)]

ghost use Rattle.std.specs.Prelude.{◌≡◌, ◌≤◌, ◌<◌, [], length, take};

use std::env::{Env, FillError};
use std::fs::File;
use std::io;
use std::io::{ErrorKind, Print, Read};

// How many words the command line has, the program's name among them.
pub fn arg_count(rt: &impl Env) -> usize {
    let mut word = [0u8; 1];
    for i in 0..usize::MAX {
        if let Err(FillError::NotPresent) = rt.arg(i, &mut word) {
            return i;
        }
    }
    usize::MAX
}

// A word of the command line: how many bytes of it stand at the start of `word`, none where there is no such word or it is longer.
pub fn arg(rt: &impl Env, i: usize, word: &mut [u8]) -> usize
    ensures { result ≤ length word.new }
{
    rt.arg(i, word).unwrap_or(0)
}

// A file to be read. A name is UTF-8.
pub fn open_read(rt: &HostRuntime, name: &[u8]) -> io::Result<File> {
    match std::str::from_utf8(name) {
        Ok(path) => File::open(rt, path),
        Err(_) => Err(io::Error::from(ErrorKind::InvalidFilename)),
    }
}

// Reads until `buf` is full, the input ends or a read fails: how many bytes stand at the start of `buf`.
pub fn read_full<R: Read>(file: &mut R, buf: &mut [u8]) -> usize
    ensures { result ≤ length buf.new }
{
    let mut done = 0;
    // Kept: how far each read goes is not known before.
    while done < buf.len() {
        let n = read_some(file, &mut buf[done..]);
        if n == 0 {
            break;
        }
        done += n;
    }
    done
}

// One read, of no byte where it fails.
fn read_some<R: Read>(file: &mut R, buf: &mut [u8]) -> usize
    ensures { result ≤ length buf.new }
{
    file.read(buf).unwrap_or(0)
}

// The first bytes of a text, where it has so many; else none.
pub fn start_of(text: &[u8], size: usize) -> &[u8]
    ensures whole { size ≤ length text.now → result.now ≡ take size text.now }
    ensures none { length text.now < size → result.now ≡ [] }
{
    text.get(..size).unwrap_or(&[])
}

// Writes all of the bytes, as far as they can be written.
pub fn write(file: &impl Print, bytes: &[u8]) {
    let _ = file.write_all(bytes);
}

// Writes a number in decimal.
pub fn write_number(file: &impl Print, number: u64) {
    let _ = file.print(number);
}

// Says on standard error why a file cannot be opened: its name, and the system's words.
pub fn fail(rt: &HostRuntime, name: &[u8], error: io::Error) {
    let file = rt.stderr();
    write(&file, name);
    write(&file, b": ");
    if let Ok(text) = format!(in rt.alloc(); "{error}") {
        let words = text.as_str();
        let said = words
            .split_once(" (os error ")
            .map_or(words, |parts| parts.0);
        write(&file, said.as_bytes());
    }
    write(&file, b"\n");
}
