// Numbers and pieces of text in bytes: split, compared, read and written.
#![tactic(auto)]

mod comparing;
mod pieces;
mod reading;
mod writing;

pub use comparing::same;
pub use pieces::{Pieces, before, piece_end, split};
pub use reading::{NumberError, read_number};
pub use writing::{LINE_BYTES, line, put_figure, put_line, put_within};
