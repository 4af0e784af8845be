// The opened state (docs/RULES.md, "The year's state"), written from the sheet's table of kilowatts and the steps'
// figures, group by group in the order of its rows. Apart from opening for the prover's time.
#![tactic(auto)]

ghost use Rattle.std.specs.Prelude.{◌≡◌, ℕ, ◌+◌, ◌≤◌, ◌<◌};
ghost use Rattle.base.specs.Limits.{most_interties, most_holders};
ghost use Rattle.base.specs.Words.{at};
ghost use Rattle.sheet_reading.specs.Tables.{slots};
ghost use Rattle.state.specs.Layout.{whole_rows};
ghost use Rattle.state_rows.specs.Rows.{fill_row};
ghost use Rattle.opened_state.specs.Write.{low, sizes_written, figures_written, existing_written, reserved_written};
ghost use Rattle.opened_state.specs.Write.{stage_written, rows_cleared, pairs_cleared, written};

use base::limits::{MOST_HOLDERS, MOST_INTERTIES, MOST_PAIRS, STATE_WORDS};
use base::stages::Stage;
use sheet_reading::tables;
use sheet_reading::tables::Read;
use state::layout;

// What the steps give from a sheet: of each holder its Step 5 share, its Step 7 total and what it holds, of each pair P and N,
// and of each intertie what stays unassigned.
#[derive(Drop)]
pub struct Figures {
    pub shares: [u64; MOST_HOLDERS],
    pub totals: [u64; MOST_HOLDERS],
    pub held: [u64; MOST_HOLDERS],
    pub pre_ra: [u64; MOST_PAIRS],
    pub new_use: [u64; MOST_PAIRS],
    pub unassigned: [u64; MOST_INTERTIES],
}

// What a state is written from: what was read of a sheet, its sizes in range, and the steps' figures.
#[derive(Clone, Copy)]
struct Source<'a> {
    read: Read<'a>,
    figures: &'a Figures,
    ghost few: { read.interties ≤ most_interties },
    ghost small: { read.holders ≤ most_holders },
}

impl Source<'_> {
    // I and H.
    fn write_sizes(self, state: &mut [u32; STATE_WORDS])
        ensures { let r = self.entry.read in state.new ≡ sizes_written r.interties r.holders state.old }
    {
        state::store(
            state,
            layout::SIZES,
            layout::INTERTIES,
            self.read.interties as u32,
        );
        state::store(
            state,
            layout::SIZES,
            layout::HOLDERS,
            self.read.holders as u32,
        );
    }

    // The sheet's kilowatts, from a slot on, over the first columns of a row.
    fn write_slots(self, state: &mut [u32; STATE_WORDS], row: usize, count: usize, slot: usize)
        requires { (row < whole_rows) × (count ≤ most_interties) × (slot + count ≤ slots) }
        ensures { state.new
            ≡ fill_row row count (λ (c : ℕ). low (at self.entry.read.tables.now.kw (slot + c))) state.old }
    {
        let kw = &self.read.tables.kw;
        state_rows::store_row(state, row, count, &kw[slot..]);
    }

    // Limits and outside rights; load shares, Step 5 shares, Step 7 totals and reserved.
    fn write_figures(self, state: &mut [u32; STATE_WORDS])
        ensures { let r = self.entry.read in
            state.new ≡ figures_written r.tables.now r.interties r.holders self.entry.figures.now state.old }
    {
        let interties = self.read.interties;
        let holders = self.read.holders;
        let figures = self.figures;
        let kw = &self.read.tables.kw;
        state_rows::store_row(state, layout::LIMIT as usize, interties, kw);
        self.write_slots(state, layout::OUTSIDE as usize, interties, tables::OUTSIDE);
        self.write_slots(
            state,
            layout::LOAD_SHARE as usize,
            holders,
            tables::LOAD_SHARES,
        );
        state_rows::store_row(
            state,
            layout::STEP_5_SHARE as usize,
            holders,
            &figures.shares,
        );
        state_rows::store_row(
            state,
            layout::STEP_7_TOTAL as usize,
            holders,
            &figures.totals,
        );
        state_rows::store_row(state, layout::RESERVED as usize, holders, &figures.held);
    }

    // E of every pair.
    fn write_existing(self, state: &mut [u32; STATE_WORDS])
        ensures { let r = self.entry.read in state.new ≡ existing_written r.tables.now r.interties r.holders state.old }
    {
        for holder in 0..self.read.holders {
            self.write_slots(
                state,
                layout::EXISTING as usize + holder,
                self.read.interties,
                tables::EXISTING + tables::HOLDER_INTERTIES * holder,
            );
        }
    }

    // E, P and N.
    fn write_reserved(self, state: &mut [u32; STATE_WORDS])
        ensures { let r = self.entry.read in
            state.new ≡ reserved_written r.tables.now r.interties r.holders self.entry.figures.now state.old }
    {
        let interties = self.read.interties;
        let holders = self.read.holders;
        let figures = self.figures;
        self.write_existing(state);
        state_rows::store_pairs(
            state,
            layout::PRE_RA as usize,
            holders,
            interties,
            &figures.pre_ra,
        );
        state_rows::store_pairs(
            state,
            layout::NEW_USE as usize,
            holders,
            interties,
            &figures.new_use,
        );
    }

    // Stage 1, no taking yet; unassigned of the interties and unplaced of the holders, which is their Step 5 share.
    fn write_stage(self, state: &mut [u32; STATE_WORDS])
        ensures { let r = self.entry.read in state.new ≡ stage_written r.interties r.holders self.entry.figures.now state.old }
    {
        let unassigned = &self.figures.unassigned;
        let unplaced = &self.figures.shares;
        state::store(state, layout::YEAR, layout::STAGE, Stage::Trading.number());
        state::store(state, layout::YEAR, layout::LAST_DAY, 0);
        state_rows::store_row(
            state,
            layout::UNASSIGNED as usize,
            self.read.interties,
            unassigned,
        );
        state_rows::store_row(
            state,
            layout::UNPLACED as usize,
            self.read.holders,
            unplaced,
        );
    }

    // No sellers and no takings. (Zeros are stored: state_rows' `Cleared` is its own, and a function that clears one row would be a public
    // one more, for these three rows.)
    fn clear_rows(self, state: &mut [u32; STATE_WORDS])
        ensures { state.new ≡ rows_cleared self.entry.read.holders state.old }
    {
        let holders = self.read.holders;
        let zeros = [0u64; MOST_INTERTIES];
        state_rows::store_row(state, layout::SELLERS as usize, holders, &zeros);
        state_rows::store_row(state, layout::LAST_WEEK as usize, holders, &zeros);
        state_rows::store_row(state, layout::TAKINGS as usize, holders, &zeros);
    }

    // Nothing placed, taken, locked or pending.
    fn clear_pairs(self, state: &mut [u32; STATE_WORDS])
        ensures { let r = self.entry.read in state.new ≡ pairs_cleared r.interties r.holders state.old }
    {
        let interties = self.read.interties;
        let holders = self.read.holders;
        state_rows::clear_pairs(state, layout::PLACED as usize, holders, interties);
        state_rows::clear_pairs(state, layout::TAKEN as usize, holders, interties);
        state_rows::clear_pairs(state, layout::LOCKED as usize, holders, interties);
        state_rows::clear_pairs(state, layout::TERM as usize, holders, interties);
        state_rows::clear_pairs(state, layout::PENDING as usize, holders, interties);
    }
}

// Writes every word of an opened state, of a number over 32 bits its low ones: the sizes, the sheet's
// limits, outside rights, load shares and E, and what the steps gave. Does nothing where the state is
// under 16,000 words, or there are over 48 interties or over 32 holders. (Nothing, and no error: who calls it has tested them.
// Not base's `sizes_in_range`, which asks for one of each; no method of `Read`, as steps_2_to_4 says at `fit_tables`.)
pub fn write_state(state: &mut [u32], read: Read<'_>, figures: &Figures)
    ensures { let r = read.entry in state.new ≡ written r.tables.now r.interties r.holders figures.now state.old }
{
    if (MOST_INTERTIES < read.interties) | (MOST_HOLDERS < read.holders) {
        return;
    }
    let Some(state) = state.first_chunk_mut::<STATE_WORDS>() else {
        return;
    };
    let from = Source { read, figures };
    from.write_sizes(state);
    from.write_figures(state);
    from.write_reserved(state);
    from.write_stage(state);
    from.clear_rows(state);
    from.clear_pairs(state);
}
