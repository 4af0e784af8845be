// The sheet of an assignment year: its words, its records one by one, and a sheet written.
#![tactic(auto)]

pub mod reader;
pub mod words;
pub mod writing;
