// What a closing has granted, and what it leaves on each intertie and to each holder.
ghost use Rattle.std.specs.Prelude.{◌≡◌, ℕ, ◌-◌, ◌≤◌, ◌<◌, length};
ghost use Rattle.base.specs.Limits.{grants_words};
ghost use Rattle.base.specs.Words.{at};
ghost use Rattle.state.specs.Layout.{interties, holders, unassigned_of, unplaced_of};
ghost use Rattle.closing.specs.Close.{close_grants, granted_on, granted_to};
ghost use Rattle.closing.specs.Workers.Work.{Closable, Grants};

use super::rows;
use base::limits::{MOST_HOLDERS, MOST_INTERTIES};
use base::vectors;
use state::layout;

// A state that is closed, and the table of the closing's grants: a row of 48 numbers for each holder.
#[derive(Clone, Copy)]
pub(super) struct Closing<'a> {
    pub(super) state: &'a [u32],
    pub(super) table: &'a [u64],
    ghost closable: { Closable state.now },
    ghost granted: { Grants state.now table.now },
}

impl Closing<'_> {
    // Writes the grants into the buffer: word h·I + i has the kW of holder h on intertie i. (By place: of `chunks_mut` nothing is
    // said of what the buffer ends as.)
    pub(super) fn write_grants(self, grants: &mut [u32])
        requires { grants_words ≤ length grants.old }
        ensures { grants.new ≡ close_grants self.entry.state.now grants.old }
    {
        let interties = state::intertie_count(self.state) as usize;
        let holders = state::holder_count(self.state) as usize;
        let (rows, _) = self.table.as_chunks::<MOST_INTERTIES>();
        for (holder, row) in rows[..holders].iter().enumerate() {
            for (intertie, kw) in row[..interties].iter().enumerate() {
                grants[holder * interties + intertie] = *kw as u32;
            }
        }
    }

    // Writes what each intertie has unassigned, less its grants. (This row and the next are lent, as `read_rows` and `take_off_each`
    // are lent theirs.)
    pub(super) fn leave_unassigned(self, row: &mut [u64; MOST_INTERTIES])
        ensures { let s = self.entry.state.now in
            ((i : ℕ) → i < interties s → at row.new i ≡ unassigned_of s i - granted_on s i) }
    {
        let holders = state::holder_count(self.state) as usize;
        rows::read_rows(self.state, layout::UNASSIGNED, row);
        let (rows, _) = self.table.as_chunks::<MOST_INTERTIES>();
        vectors::take_off_each(&rows[..holders], row);
    }

    // Writes what each holder has unplaced, less its grants. (By place: what a zip of `iter_mut` lends is lost to the proof.)
    pub(super) fn leave_unplaced(self, row: &mut [u64; MOST_HOLDERS])
        ensures { let s = self.entry.state.now in
            ((h : ℕ) → h < holders s → at row.new h ≡ unplaced_of s h - granted_to s h) }
    {
        let interties = state::intertie_count(self.state) as usize;
        rows::read_rows(self.state, layout::UNPLACED, row);
        let (rows, _) = self.table.as_chunks::<MOST_INTERTIES>();
        for (holder, unplaced) in row.iter_mut().enumerate() {
            let granted = vectors::sum_of(&rows[holder][..interties]);
            *unplaced = unplaced.saturating_sub(granted);
        }
    }
}
