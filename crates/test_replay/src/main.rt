// Reads requests with the published Rust's answers on standard input (docs/FORMATS.md), puts each to the port, and prints the place of each one that is
// answered otherwise, from 1 on, then how many there were.
#![tactic(auto)]

mod agree; // the port's answer against the Rust's
mod checksum; // a number for many bytes
mod perform; // the request put to the port
mod request; // a request and the Rust's answer as bytes

use crate::request::Request;

// More requests than are stored.
const MOST: u64 = 1000000;

#[derive(Clone, Copy)]
struct Tally {
    replayed: u64,
    differ: u64,
}

// What follows a head: the contexts or the body, as long as the buffers.
fn replay_filled(
    rt: &HostRuntime,
    out: &mut [u8],
    r: Request,
    first: &mut [u8],
    second: &mut [u8],
) -> bool {
    let n = program_files::read_full(&mut rt.stdin(), first);
    if n < first.len() {
        return false;
    }
    let m = program_files::read_full(&mut rt.stdin(), second);
    m == second.len() && agree::replay(out, r, first, second)
}

// Whether the next request is answered as the Rust did; none where there is nothing to read.
fn replay_one(
    rt: &HostRuntime,
    out: &mut [u8],
    first: &mut [u8],
    second: &mut [u8],
) -> Option<bool> {
    let mut head = [0u8; 56];
    let got = program_files::read_full(&mut rt.stdin(), &mut head);
    if got == 0 {
        return None;
    }
    if got < 56 {
        return Some(false);
    }
    let r = request::request_in(&head);
    let n = r.first;
    let m = r.second;
    if first.len() < n || second.len() < m {
        return Some(false);
    }
    Some(replay_filled(rt, out, r, &mut first[..n], &mut second[..m]))
}

fn report(rt: &HostRuntime, place: u64) {
    program_files::write_number(rt, place);
    program_files::write(rt, b" differs\n");
}

// A proved loop has to end, and nothing says that the input does.
fn replay_all(rt: &HostRuntime, out: &mut [u8], first: &mut [u8], second: &mut [u8]) -> Tally {
    let mut replayed = 0;
    let mut differ = 0;
    for place in 1..=MOST {
        let Some(agreed) = replay_one(rt, out, first, second) else {
            break;
        };
        replayed = place;
        if !agreed {
            differ += 1;
            report(rt, place);
        }
    }
    Tally { replayed, differ }
}

fn main(rt: HostRuntime) {
    let mut out = [0u8; 262144];
    let mut first = [0u8; 65536];
    let mut second = [0u8; 65536];
    let tally = replay_all(&rt, &mut out, &mut first, &mut second);
    program_files::write_number(&rt, tally.replayed);
    program_files::write(&rt, b" replayed, ");
    program_files::write_number(&rt, tally.differ);
    program_files::write(&rt, b" differ\n");
}
