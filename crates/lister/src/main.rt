// Reads instruction records on standard input, and prints their listing, or the number and place of a refusal.
#![tactic(auto)]

fn main(rt: HostRuntime) {
    // 65,536 bytes are 2,730 records and part of another: a longer input is refused at place 2,731, as one that is read whole would be.
    let mut records = [0u8; 65536];
    let n = program_files::read_full(&mut rt.stdin(), &mut records);
    let mut text = [0u8; listing::LONGEST];
    let size = listing::print_records(&records[..n], &mut text);
    program_files::write(&rt, &text[..size]);
}
