// Plays lists of order records, from standard input or from the files named, each on a fresh channel, and prints what came of each order, what was printed,
// and the variables and blocks at the end, unless a run did not end. An argument `listing` asks for the instructions too, `edition N` for the blocks of an edition
// and `frame N` for a frame of so many spills, of the files after it; the edition is 1 and a frame has 256 where none is asked.
#![tactic(auto)]

use channel_step::channel;
use channel_step::channel::Channel;
use machine::run::RunAnswer;
use order_spec::answer::OrderAnswer;
use program_files::{start_of, write};
use program_options::named;
use program_options::named::Player;
use std::io::Read;

// What print calls leave in registers: nothing depends on it.
const LEFT: u64 = 0x5A5A5A5A5A5A5A5A;

// The bytes of 2,730 records.
const LISTING: usize = 65520;

// The most bytes of a list, and of what its orders print.
const INPUT: usize = 262144;

const PRINTS: usize = 262144;

// A list that is played, on blocks, records and texts that are lent: whether instructions are listed, where the next order starts, its number, the label counter,
// how many bytes were printed, whether a run did not end, and the channel.
#[derive(Drop)]
struct Run<'a> {
    heap: &'a mut [u64],
    records: &'a mut [u8],
    text: &'a mut [u8],
    prints: &'a mut [u8],
    listed: bool,
    at: usize,
    number: u64,
    counter: u64,
    printed: usize,
    stopped: bool,
    channel: Channel,
}

// Instructions, at most 2,730 to a listing.
fn list(rt: &HostRuntime, records: &[u8], text: &mut [u8]) {
    for part in records.chunks(LISTING) {
        let size = listing::print_records(part, text);
        write(rt, start_of(text, size));
    }
}

fn tell(rt: &HostRuntime, frame: u64, number: u64, order: &[u8], before: u64, answer: OrderAnswer) {
    let mut line = [0u8; 256];
    let size = report::answers::put_order(&mut line, 0, frame, number, order, before, answer);
    write(rt, start_of(&line, size));
}

fn tell_stop(rt: &HostRuntime, number: u64, order: &[u8], ran: RunAnswer) {
    let mut line = [0u8; 256];
    let size = report::stops::put_stop(&mut line, 0, number, order, ran);
    write(rt, start_of(&line, size));
}

// The first of the records.
fn list_first(rt: &HostRuntime, records: &mut [u8], text: &mut [u8], count: usize) {
    if count <= records.len() / 24 {
        list(rt, &records[..24 * count], text);
    }
}

impl Run<'_> {
    // What an accepted order prints goes after what was printed before.
    fn print(&mut self, order: &[u8]) {
        let at = self.printed;
        let channel = self.channel;
        let words = channel::stack_words(channel.frame);
        let Some(stack) = channel.stack.as_slice().get(..words) else {
            return;
        };
        if at < PRINTS {
            self.printed = report_state::prints::put_print(
                self.prints,
                at,
                channel.frame,
                order,
                &channel.registers,
                stack,
            );
        }
    }

    // One order with its bindings.
    fn item(&mut self, rt: &HostRuntime, order: &[u8], bindings: &[u8]) {
        let before = self.channel;
        let counter = self.counter;
        let played = channel::play(
            before,
            self.heap,
            self.records,
            counter,
            order,
            bindings,
            [LEFT; 9],
        );
        tell(
            rt,
            played.channel.frame,
            self.number,
            order,
            counter,
            played.answer,
        );
        if let Ok(accepted) = played.answer {
            if self.listed {
                list_first(rt, self.records, self.text, accepted.records);
            }
            tell_stop(rt, self.number, order, played.ran);
            self.print(order);
            self.counter = accepted.counter;
            self.stopped = played.ran.is_err();
        }
        self.channel = played.channel;
        self.number = self.number.wrapping_add(1);
    }

    // All orders of a list, up to a run that does not end. All but the last have 24 bytes at least.
    fn play(&mut self, rt: &HostRuntime, input: &[u8]) {
        for _ in 0..input.len() / 24 + 1 {
            let at = self.at;
            if self.stopped || input.len() <= at {
                return;
            }
            let found = channel_step::list::item_at(input, at);
            self.item(
                rt,
                &input[at..found.order_end],
                &input[found.order_end..found.end],
            );
            self.at = found.end;
        }
    }

    fn show_prints(&self, rt: &HostRuntime) {
        write(rt, b"printed\n");
        let printed = start_of(self.prints, self.printed);
        write(rt, printed);
        if !printed.is_empty() && !printed.ends_with(b"\n") {
            write(rt, b"\n");
        }
    }

    fn show_variables(&mut self, rt: &HostRuntime) {
        write(rt, b"variables\n");
        let channel = self.channel;
        let words = channel::stack_words(channel.frame);
        let Some(stack) = channel.stack.as_slice().get(..words) else {
            return;
        };
        let Some(context) = channel.context.as_slice().get(..channel.used) else {
            return;
        };
        let size = report_state::variables::put_variables(
            self.text,
            0,
            channel.edition,
            channel.frame,
            context,
            &channel.registers,
            stack,
        );
        write(rt, start_of(self.text, size));
    }

    fn show_blocks(&self, rt: &HostRuntime) {
        let Some(blocks) = heap_chains::count_blocks(
            self.channel.edition,
            &self.channel.registers,
            self.heap,
        ) else {
            return;
        };
        let mut line = [0u8; 256];
        let size = report::put_blocks(
            &mut line,
            0,
            blocks.linear,
            blocks.lazy,
            blocks.held,
            blocks.untouched,
        );
        write(rt, start_of(&line, size));
    }
}

// A list played on a channel of its own: 8,192 blocks, or 4,096 of the second edition, the records of the largest order, a store of 261 linked variables, and more
// than the 10,922 orders of the longest list can print.
fn play_list(
    rt: &HostRuntime,
    input: &[u8],
    text: &mut [u8],
    listed: bool,
    edition: u64,
    frame: u64,
) {
    let mut heap = [0u64; 65536];
    let mut records = [0u8; channel::RECORDS];
    let mut prints = [0u8; PRINTS];
    let mut run = Run {
        heap: &mut heap,
        records: &mut records,
        text,
        prints: &mut prints,
        listed,
        at: 0,
        number: 1,
        counter: 0,
        printed: 0,
        stopped: false,
        channel: channel::fresh(edition, frame),
    };
    run.play(rt, input);
    run.show_prints(rt);
    if !run.stopped {
        run.show_variables(rt);
        run.show_blocks(rt);
    }
}

// Whether instructions are asked for.
#[derive(Drop)]
struct Asked {
    listed: bool,
}

impl Player for Asked {
    fn takes(&mut self, word: &[u8]) -> bool {
        let listing = word == b"listing".as_slice();
        if listing {
            self.listed = true;
        }
        listing
    }

    fn play<R: Read>(&mut self, rt: &HostRuntime, file: &mut R, edition: u64, frame: u64) {
        // One byte more than a list may have.
        let mut input = [0u8; INPUT + 1];
        let n = program_files::read_full(file, &mut input);
        if INPUT < n {
            write(
                &rt.stderr(),
                b"a list of more than 262144 bytes is not played\n",
            );
            return;
        }
        let mut text = [0u8; listing::LONGEST];
        play_list(rt, &input[..n], &mut text, self.listed, edition, frame);
    }
}

fn main(rt: HostRuntime) {
    named::play_named(&rt, &mut Asked { listed: false });
}
