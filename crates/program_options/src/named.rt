// The files that the words of a command line name, each played in the edition and the frame that the words before it choose.
use crate::{Options, Said};
use std::io::Read;

// What a program does with the lists that it is given.
pub trait Player {
    // Whether a word that chooses neither edition nor frame is one of the program's own, and so names no file.
    fn takes(&mut self, word: &[u8]) -> bool;

    // Plays what can be read of a list.
    fn play<R: Read>(&mut self, rt: &HostRuntime, file: &mut R, edition: u64, frame: u64);
}

// What is wrong with an edition or a frame.
fn warn(rt: &HostRuntime, said: Option<Said>) {
    let mut line = [0u8; 32];
    let size = crate::put_said(&mut line, 0, said);
    program_files::write(&rt.stderr(), program_files::start_of(&line, size));
}

// A file is played where there are such an edition and such a frame.
fn play_file<P: Player>(rt: &HostRuntime, name: &[u8], o: Options, player: &mut P) {
    let Some((edition, frame)) = crate::played_in(o) else {
        return;
    };
    match program_files::open_read(rt, name) {
        Ok(mut file) => {
            program_files::write(rt, name);
            program_files::write(rt, b"\n");
            player.play(rt, &mut file, edition, frame);
        }
        Err(error) => program_files::fail(rt, name, error),
    }
}

// Plays the files as they are named, or standard input where none is.
pub fn play_named<P: Player>(rt: &HostRuntime, player: &mut P) {
    let mut options = crate::at_first();
    let mut named = false;
    for i in 1..program_files::arg_count(rt) {
        let mut bytes = [0u8; 4096];
        let n = program_files::arg(rt, i, &mut bytes);
        let word = &bytes[..n];
        if let Some((chosen, said)) = crate::hear(word, options) {
            warn(rt, said);
            options = chosen;
        } else if !player.takes(word) {
            play_file(rt, word, options, player);
            named = true;
        }
    }
    warn(rt, crate::still_to_come(options));
    if named {
        return;
    }
    if let Some((edition, frame)) = crate::played_in(options) {
        player.play(rt, &mut rt.stdin(), edition, frame);
    }
}
