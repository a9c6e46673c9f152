// Reads orders in words on standard input, and writes their records to standard output, or the message of the first bad line to
// standard error.
#![tactic(auto)]

use plan::NotPlanned;
use plan_line::wrong::Wrong;

fn say_wrong(rt: &HostRuntime, line: usize, wrong: Wrong) {
    let mut message = [0u8; 59];
    let size = plan::put_wrong(&mut message, 0, line, wrong);
    program_files::write(&rt.stderr(), &message[..size]);
}

// The records of a text, by way of `records`, or what is wrong with it.
fn write_plan(rt: &HostRuntime, text: &[u8], records: &mut [u8]) {
    match plan::plan(text, records) {
        Ok(size) => program_files::write(rt, &records[..size]),
        Err(NotPlanned::Bad(line, wrong)) => say_wrong(rt, line, wrong),
        Err(NotPlanned::Room(_)) => program_files::write(
            &rt.stderr(),
            b"records longer than 655360 bytes\n",
        ),
        Err(NotPlanned::Long) => program_files::write(
            &rt.stderr(),
            b"text longer than 131072 bytes\n",
        ),
    }
}

fn main(rt: HostRuntime) {
    // One byte more than a text may have.
    let mut text = [0u8; 131073];
    let n = program_files::read_full(&mut rt.stdin(), &mut text);
    // Five bytes of records for each byte of text: 24 bytes stand for at least `drop` and its newline, 8 for ` e`.
    let mut records = [0u8; 655360];
    write_plan(&rt, &text[..n], &mut records);
}
