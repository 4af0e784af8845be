// The rows of a posting, one for each figure of its lines, as include/zankurbe.h has them. A row has 48 numbers: the columns
// of the first six are the interties, those of the others the holders. Each number is named here once; specs/Rows has the
// same.
use state::layout::ROW_WORDS;

// Of an intertie: limit, outside, E, P, N, unassigned.
pub const LIMIT: usize = 0;

pub const OUTSIDE: usize = 1;

pub const EXISTING: usize = 2;

pub const PRE_RA: usize = 3;

pub const NEW_USE: usize = 4;

pub const UNASSIGNED: usize = 5;

// Of a holder: load share, Load Share Quantity, reserved, Step 5 share.
pub const LOAD_SHARE: usize = 6;

pub const LOAD_SHARE_QUANTITY: usize = 7;

pub const RESERVED: usize = 8;

pub const STEP_5_SHARE: usize = 9;

// How many rows an intertie's line has, how many a holder's, and all of them.
pub const INTERTIE_ROWS: usize = LOAD_SHARE;

pub const HOLDER_ROWS: usize = ROWS - INTERTIE_ROWS;

pub const ROWS: usize = 10;

// The numbers of a posting.
pub const NUMBERS: usize = ROWS * ROW_WORDS;
