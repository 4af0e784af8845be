// Where each word of the year's state stands (docs/RULES.md, "The year's state"). Each number is named here once;
// specs/Layout has the same.
//
// The words stand in rows of 48; a constant is the number of a row, or of a column where it says so. A row has a field of
// the interties or of the holders. A field of the pairs has a row for each holder, 32 in all, and its constant is the first.
use base::limits::{MOST_HOLDERS, STATE_WORDS};

// The words of a row.
pub const ROW_WORDS: usize = 48;

// The row of the sizes; the interties and the holders are columns of it. Rows 0 to 102 are what
// opening writes and no other call.
pub const SIZES: u32 = 0;

pub const INTERTIES: u32 = 0;

pub const HOLDERS: u32 = 1;

// Per intertie.
pub const LIMIT: u32 = 1;

pub const OUTSIDE: u32 = 2;

// Per holder.
pub const LOAD_SHARE: u32 = 3;

pub const STEP_5_SHARE: u32 = 4;

pub const STEP_7_TOTAL: u32 = 5;

pub const RESERVED: u32 = 6;

// Per pair: E, P and N.
pub const EXISTING: u32 = 7;

pub const PRE_RA: u32 = 39;

pub const NEW_USE: u32 = 71;

// The row of the year; the stage and the last taking's day are columns of it. The rows from 103 on
// are what calls write.
pub const YEAR: u32 = 103;

pub const STAGE: u32 = 0;

pub const LAST_DAY: u32 = 1;

// Per intertie.
pub const UNASSIGNED: u32 = 104;

// Per holder.
pub const UNPLACED: u32 = 105;

pub const SELLERS: u32 = 106;

pub const LAST_WEEK: u32 = 107;

pub const TAKINGS: u32 = 108;

// Per pair.
pub const PLACED: u32 = 109;

pub const TAKEN: u32 = 141;

pub const LOCKED: u32 = 173;

pub const TERM: u32 = 205;

pub const PENDING: u32 = 237;

// The last row that the layout names. Behind pending's rows as many are kept free, and it is the last of these; no field begins
// behind it.
pub const LAST_ROW: usize = (PENDING as usize) + 2 * MOST_HOLDERS - 1;

// The rows that a state of 16,000 words has whole.
pub const WHOLE_ROWS: usize = STATE_WORDS / ROW_WORDS;
