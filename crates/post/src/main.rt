// Program `post`: a sheet on standard input, its posting on standard output (docs/RULES.md, "Beside the year"). Its
// test runs it on the sheet of case i, crates/post/stdin.
#![tactic(auto)]

use input::{SHEET_ROOM, say};
use std::io;

// Reads a sheet from standard input and prints its posting, or `R` and the number of its refusal; so is a longer input refused, of
// which the room takes a byte more than a sheet has. Where it can't be read or printed, standard error says so. (Without the
// system's reason: its two lines are held by tests/programs.)
fn main(rt: HostRuntime) {
    let mut sheet = [0u8; SHEET_ROOM];
    let Ok(count) = input::read_whole(&mut rt.stdin(), &mut sheet) else {
        say(&rt.stderr(), b"standard input: can't be read\n");
        return;
    };
    if print_posting(&rt.stdout(), &sheet[..count]).is_err() {
        say(&rt.stderr(), b"standard output: can't be written\n");
    }
}

// Prints the posting of a sheet.
fn print_posting(stdout: &impl Print, sheet: &[u8]) -> io::Result<()> {
    let text = posting_text::posting_text(sheet);
    stdout.write_all(text.as_slice())
}
