// Program `sheet`: comma-separated text on standard input becomes a sheet's bytes on standard
// output; with a sheet's file name as its argument it prints the sheet's text.
#![tactic(auto)]

use input::{SHEET_ROOM, fail, say};
use std::io::Read;
use std::rt::{Env, Files};

// The longest text that is read.
const MOST_TEXT_BYTES: usize = 131_072;

// Room for it and for one byte more, by which a longer one is told from it.
const TEXT_ROOM: usize = MOST_TEXT_BYTES + 1;

// Converts or prints, by the number of arguments.
fn main(rt: HostRuntime) {
    if !input::has_argument(&rt, 1) {
        convert_input(&mut rt.stdin(), &rt.stdout(), &rt.stderr());
        return;
    }
    if !input::has_argument(&rt, 2) {
        print_argument(&rt, &rt.stderr());
        return;
    }
    say(
        &rt.stderr(),
        b"usage: sheet < TEXT > SHEET, or sheet SHEET\n",
    );
}

// Text on standard input becomes a sheet on standard output. (Here and below a failure is said where it is met, which is one
// place for each: an enum with one `report`, as year has, would name each of them a second time, and three would carry the file's name
// or read it again.)
fn convert_input(stdin: &mut impl Read, stdout: &impl Print, stderr: &impl Print) {
    let mut text = [0u8; TEXT_ROOM];
    match input::read_whole(stdin, &mut text) {
        Ok(count) if TEXT_ROOM <= count => say(stderr, b"the text has over 131,072 bytes\n"),
        Ok(count) => write_sheet(stdout, stderr, &text[..count]),
        Err(failed) => fail(stderr, b"standard input", failed.error),
    }
}

// Writes the sheet that a text says, or says its fault.
fn write_sheet(stdout: &impl Print, stderr: &impl Print, text: &[u8]) {
    match sheet_table::to_sheet(text) {
        Ok(sheet) => write_out(stdout, stderr, sheet.as_slice()),
        Err(unreadable) => {
            let _ = println!(stderr; "{unreadable}");
        }
    }
}

// Writes to standard output. Where that fails, standard error says why.
fn write_out(stdout: &impl Print, stderr: &impl Print, bytes: &[u8]) {
    if let Err(error) = stdout.write_all(bytes) {
        fail(stderr, b"standard output", error);
    }
}

// Prints the sheet of the file that the argument names.
fn print_argument<R: Env + Files + Print>(rt: &R, stderr: &impl Print) {
    let mut buffer = io::buffer();
    match input::argument(rt, 1, &mut buffer) {
        Ok(name) => print_file(rt, stderr, name),
        Err(error) => fail(stderr, b"file name", error),
    }
}

// Prints the sheet of a file. (A name is said apart from the text after it, here and below: it is bytes that may be no text.)
fn print_file<R: Files + Print>(rt: &R, stderr: &impl Print, name: &[u8]) {
    let mut sheet = [0u8; SHEET_ROOM];
    match input::read_file(rt, name, &mut sheet) {
        Ok(count) if SHEET_ROOM <= count => {
            say(stderr, name);
            say(stderr, b": longer than a sheet\n");
        }
        Ok(count) => print_sheet(rt, stderr, name, &sheet[..count]),
        Err(failed) => fail(stderr, name, failed.error),
    }
}

// Prints the text of a sheet.
fn print_sheet(stdout: &impl Print, stderr: &impl Print, name: &[u8], sheet: &[u8]) {
    match sheet_table::to_table(sheet) {
        Some(text) => write_out(stdout, stderr, text.as_slice()),
        None => {
            say(stderr, name);
            say(stderr, b": not a sheet, refused with number 1\n");
        }
    }
}
