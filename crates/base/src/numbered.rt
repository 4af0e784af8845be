// Kinds of record, stages and kinds of call have numbers (specs/Numbered); what a number is that names none of them.

// A number that names no kind, no stage and no call.
#[derive(Clone, Copy, Debug, PartialEq, Eq)]
pub struct Unnamed;
