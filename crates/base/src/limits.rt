// The limits of the rules, each named here once; specs/Limits has the same numbers for the contracts.
ghost use Rattle.std.specs.Prelude.{◌≡◌, ◌&&◌, leb};
ghost use Rattle.base.specs.Limits.{most_interties, most_holders};

// The interties of a sheet, at least 1.
pub const MOST_INTERTIES: usize = 48;

// The holders of a sheet, at least 1.
pub const MOST_HOLDERS: usize = 32;

// The records of a sheet.
pub const MOST_RECORDS: usize = 1_024;

// The pairs of a holder and an intertie.
pub const MOST_PAIRS: usize = 1_536;

// The kW of a record, but for a load share, of a call and of a share-out's pool.
pub const MOST_KW: u64 = 20_000_000;

// A load share, and the weight of a share-out.
pub const MOST_LOAD_SHARE: u64 = 100_000_000;

// The claim of a share-out: what as many records as a sheet has can come to.
pub const MOST_CLAIM_KW: u64 = 20_480_000_000;

// The kW of all interties together, which a holder's figures and all unplaced kW stay within.
pub const MOST_TOTAL_KW: u64 = 960_000_000;

// What a holder holds when Step 5 begins, and the T of Step 5: existing contracts, Pre-RA and New Use of all interties.
pub const MOST_HELD_KW: u64 = 3 * MOST_TOTAL_KW;

// The rank of a New Use commitment, at least 1.
pub const MOST_RANK: u32 = 255;

// The years of a contract or a commitment, this year counted, and of a lock's term; at least 1.
pub const MOST_YEARS: u32 = 30;

// The granted takings of a holder in a week.
pub const MOST_TAKINGS: u32 = 2;

// The days of a week.
pub const WEEK_DAYS: u32 = 7;

// The words that a state has at least.
pub const STATE_WORDS: usize = 16_000;

// The words that a grants buffer has at least.
pub const GRANTS_WORDS: usize = 1_536;

// The bytes of I, H and K, with which a sheet starts.
pub const SHEET_HEADER_BYTES: usize = 12;

// The bytes of a record.
pub const RECORD_BYTES: usize = 8;

// The bytes of the longest sheet.
pub const MOST_SHEET_BYTES: usize = 8_204;

// How many values a word of 32 bits has.
pub const WORD_VALUES: u64 = 4_294_967_296;

// The same limits for the words of a sheet and of a state, which have 32 bits.
pub mod words {
    pub const MOST_INTERTIES: u32 = super::MOST_INTERTIES as u32;

    pub const MOST_HOLDERS: u32 = super::MOST_HOLDERS as u32;

    pub const MOST_KW: u32 = super::MOST_KW as u32;

    pub const MOST_LOAD_SHARE: u32 = super::MOST_LOAD_SHARE as u32;

    pub const MOST_TOTAL_KW: u32 = super::MOST_TOTAL_KW as u32;
}

// Whether I and H are in range.
pub fn sizes_in_range(interties: u32, holders: u32) -> bool
    ensures { result ≡ (leb 1 interties && leb interties most_interties && leb 1 holders && leb holders most_holders) }
{
    (1..=words::MOST_INTERTIES).contains(&interties) & (1..=words::MOST_HOLDERS).contains(&holders)
}
