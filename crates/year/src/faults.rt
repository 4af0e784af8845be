// What kept a year from being run and printed, and the line of it on standard error.
use super::{JOURNAL, NEXT_SHEET, SHEET, files};
use base::refusals::Refusal;
use input::{fail, say};
use journal::Unreadable;
use std::io::Error;
use std::rt::Env;

#[derive(Drop)]
pub(super) enum Failure {
    // Too few names, or too many.
    Usage,
    // An argument that gives no name.
    Name(Error),
    // The file of an argument can't be read, or written.
    File(usize, Error),
    // The file of the sheet is longer than any sheet.
    TooLongSheet,
    // The journal is longer than there is room for.
    TooLongJournal,
    // A line of the journal.
    Journal(Unreadable),
    // The sheet is refused, which standard output says.
    Refused,
    // Words that are no list of calls, as a journal's never are.
    NotRun,
    // Standard output can't be written.
    Output(Error),
    // Next year's sheet could not be made.
    NotCarried(Refusal),
}

impl Failure {
    // Says it on standard error, in a line. (No Display: the line has a file's name, which `env` is
    // asked for and which may be no text.)
    pub(super) fn report(self, env: &impl Env, stderr: &impl Print) {
        match self {
            Failure::Usage => say(stderr, b"usage: year SHEET JOURNAL [NEXT-SHEET]\n"),
            Failure::Name(error) => fail(stderr, b"a file's name", error),
            Failure::File(argument, error) => {
                files::print_name(env, stderr, argument);
                fail(stderr, b"", error);
            }
            Failure::TooLongSheet => {
                files::print_name(env, stderr, SHEET);
                say(
                    stderr,
                    b": longer than a sheet, which has at most 8,204 bytes\n",
                );
            }
            Failure::TooLongJournal => {
                files::print_name(env, stderr, JOURNAL);
                say(stderr, b": longer than 1,048,576 bytes\n");
            }
            Failure::Journal(unreadable) => {
                files::print_name(env, stderr, JOURNAL);
                let _ = println!(stderr; ": {unreadable}");
            }
            Failure::NotCarried(refusal) => {
                files::print_name(env, stderr, NEXT_SHEET);
                let number = refusal.number();
                let _ = println!(stderr; ": not written, carry is refused with number {number}");
            }
            Failure::Output(error) => fail(stderr, b"standard output", error),
            Failure::Refused | Failure::NotRun => {}
        }
    }
}
