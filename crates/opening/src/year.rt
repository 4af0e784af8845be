// Steps 2 to 7 in order, from the tables of a sheet that stands to the year's state.
ghost use Rattle.std.specs.Prelude.{◌≡◌, ◌≤◌, length};
ghost use Rattle.base.specs.Limits.{state_words};
ghost use Rattle.base.specs.Words.{fill};
ghost use Rattle.steps.specs.Valid.{Valid};
ghost use Rattle.steps.specs.Step2.{available_total, load_share_quantity};
ghost use Rattle.steps_2_to_4.specs.Reserved.{inputs};
ghost use Rattle.opening.specs.Opened.{opened_state};

use super::figures::Reserves;
use base::limits::{MOST_HOLDERS, MOST_INTERTIES, MOST_PAIRS};
use opened_state::Figures;
use sheet_reading::tables::Read;

// Carries out Steps 2 to 7 from what was read of a sheet that stands, into the state; the Load Share Quantities go over the
// first words of a row. Answers T.
pub(super) fn steps_2_to_7(
    read: Read<'_>,
    quantities: &mut [u64; MOST_HOLDERS],
    state: &mut [u32],
) -> u64
    requires { Valid (inputs read.tables.now read.interties read.holders) × (state_words ≤ length state.old) }
    ensures { let r = read.entry in let y = inputs r.tables.now r.interties r.holders in (result ≡ available_total y)
        × (quantities.new ≡ fill r.holders (load_share_quantity y) quantities.old)
        × (state.new ≡ opened_state y state.old) }
{
    let mut figures = Figures {
        shares: [0; MOST_HOLDERS],
        totals: [0; MOST_HOLDERS],
        held: [0; MOST_HOLDERS],
        pre_ra: [0; MOST_PAIRS],
        new_use: [0; MOST_PAIRS],
        unassigned: [0; MOST_INTERTIES],
    };
    let total = steps_2_to_4::reserve(
        read,
        quantities,
        &mut figures.unassigned,
        &mut figures.pre_ra,
        &mut figures.new_use,
    );
    let reserves = Reserves {
        total,
        read,
        pre_ra: &figures.pre_ra,
        new_use: &figures.new_use,
    };
    reserves.steps_5_to_7(&mut figures.held, &mut figures.shares, &mut figures.totals);
    opened_state::write_state(state, read, &figures);
    total
}
