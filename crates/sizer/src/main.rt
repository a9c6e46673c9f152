// Plays lists of order records of any length, from standard input or from the files named, each on a fresh channel beside 65,536 blocks, or 32,768 of the second
// edition, and prints the most blocks that were reachable at once and the heap to fit for it. A run that does not end is told instead. An argument `edition N` asks
// for the blocks of an edition and `frame N` for a frame of so many spills, of the files after it; the edition is 1 and a frame has 256 where none is asked.
#![tactic(auto)]

ghost use Rattle.std.specs.Prelude.{◌≤◌, length};

use channel_step::channel;
use channel_step::channel::Channel;
use machine::run::RunAnswer;
use program_files::{start_of, write};
use program_options::named;
use program_options::named::Player;
use std::io::Read;

// What print calls leave in registers: nothing depends on it.
const LEFT: u64 = 0x5A5A5A5A5A5A5A5A;

// A list that is played, on blocks and records that are lent: how many orders were accepted and refused, whether a run did not end, and the channel.
#[derive(Drop)]
struct Run<'a> {
    heap: &'a mut [u64],
    records: &'a mut [u8],
    accepted: u64,
    refused: u64,
    stopped: bool,
    channel: Channel,
}

// The line of a run that did not end, and whether there is one.
fn tell_stop(rt: &HostRuntime, number: u64, order: &[u8], ran: RunAnswer) -> bool {
    let mut line = [0u8; 256];
    let size = report::stops::put_stop(&mut line, 0, number, order, ran);
    write(rt, start_of(&line, size));
    0 < size
}

// At most so many bytes of the file, as far as there is space: how many were read.
fn read_some<R: Read>(file: &mut R, space: &mut [u8], bytes: usize) -> usize
    ensures asked { result ≤ bytes }
    ensures room { result ≤ length space.old }
{
    let size = bytes.min(space.len());
    program_files::read_full(file, &mut space[..size])
}

// Bindings past those that any order takes, as far as the file has them.
fn skip<R: Read>(file: &mut R, space: &mut [u8], bytes: usize) {
    let mut left = bytes;
    // Kept: how far each read goes is not known before.
    while 0 < left {
        let n = read_some(file, space, left);
        if n == 0 {
            return;
        }
        left -= n;
    }
}

impl Run<'_> {
    // One order with its bindings. Each is given the counter 0, so that labels never run out.
    fn item(&mut self, rt: &HostRuntime, order: &[u8], bindings: &[u8]) {
        let before = self.channel;
        let played = channel::play(
            before,
            self.heap,
            self.records,
            0,
            order,
            bindings,
            [LEFT; 9],
        );
        self.channel = played.channel;
        if played.answer.is_err() {
            self.refused = self.refused.wrapping_add(1);
            return;
        }
        self.accepted = self.accepted.wrapping_add(1);
        let number = self.accepted.wrapping_add(self.refused);
        self.stopped = tell_stop(rt, number, order, played.ran);
    }

    // The next order of the file and the bindings that follow it: whether the list goes on.
    fn turn<R: Read>(&mut self, rt: &HostRuntime, file: &mut R, bindings: &mut [u8]) -> bool {
        let mut order = [0u8; 24];
        let n = program_files::read_full(file, &mut order);
        if n == 0 {
            return false;
        }
        let bytes = channel_step::list::bytes_after(records::order::read_order(&order[..n]));
        let m = read_some(file, bindings, bytes);
        self.item(rt, &order[..n], &bindings[..m]);
        skip(file, bindings, bytes - m);
        !self.stopped
    }

    // All orders of a file, up to a run that does not end.
    fn play<R: Read>(&mut self, rt: &HostRuntime, file: &mut R, bindings: &mut [u8]) {
        for _ in 0..u64::MAX {
            if !self.turn(rt, file, bindings) {
                return;
            }
        }
    }

    fn show_fit(&self, rt: &HostRuntime) {
        let Some(fit) = heap_chains::to_fit(
            self.channel.edition,
            &self.channel.registers,
            self.heap,
        ) else {
            return;
        };
        let mut lines = [0u8; 256];
        let size = report::put_fit(
            &mut lines,
            0,
            self.accepted,
            self.refused,
            fit.peak,
            fit.blocks,
            fit.bytes,
        );
        write(rt, start_of(&lines, size));
    }
}

// The blocks that are lent to one list after the other.
#[derive(Drop)]
struct Sizer<'a> {
    heap: &'a mut [u64],
}

impl Player for Sizer<'_> {
    fn takes(&mut self, _word: &[u8]) -> bool {
        false
    }

    // A list on a channel of its own, its blocks all zero: the records of the largest order, a store of 261 linked variables, and one binding more than any order takes.
    fn play<R: Read>(&mut self, rt: &HostRuntime, file: &mut R, edition: u64, frame: u64) {
        self.heap.fill(0);
        let mut records = [0u8; channel::RECORDS];
        let mut bindings = [0u8; 32776];
        let mut run = Run {
            heap: self.heap,
            records: &mut records,
            accepted: 0,
            refused: 0,
            stopped: false,
            channel: channel::fresh(edition, frame),
        };
        run.play(rt, file, &mut bindings);
        if !run.stopped {
            run.show_fit(rt);
        }
    }
}

fn main(rt: HostRuntime) {
    // The blocks of the larger edition's channel.
    let mut heap = [0u64; 524288];
    named::play_named(&rt, &mut Sizer { heap: &mut heap });
}
