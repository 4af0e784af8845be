// Opening, Steps 1 to 7 (docs/RULES.md, "Opening"): from a sheet to the year's state.
#![tactic(auto)]

mod figures;
mod year;

ghost use Rattle.std.specs.Prelude.{◌≡◌};
ghost use Rattle.base.specs.Refused.{answer_of};
ghost use Rattle.opening.specs.Open.{opened, quantities_found};

use base::Granted;
use base::limits::{MOST_HOLDERS, STATE_WORDS};
use base::refusals::Refusal;
use sheet_reading::refusal::Headed;
use sheet_reading::tables::{Read, Tables};
use sheet_records::words;

// Opens the year: reads the sheet, refuses it with its number or carries out Steps 2 to 7 into the
// state. A state of fewer than 16,000 words is refused with 5. The answer is T.
pub fn open(sheet: &[u8], state: &mut [u32]) -> Result<Granted, Refusal>
    ensures { let o = opened sheet.now state.old in
        (answer_of result ≡ o.answer) × (state.new ≡ o.state) }
{
    let mut quantities = [0u64; MOST_HOLDERS];
    open_with_quantities(sheet, state, &mut quantities)
}

// Opens the year and keeps the Load Share Quantities of Step 2, which no word of the state has: writes them over the first
// numbers of a row, one for each holder. A refusal leaves the row as it was. (Lent: an answer that has them
// too would be taken apart by `open`.)
pub fn open_with_quantities(
    sheet: &[u8],
    state: &mut [u32],
    quantities: &mut [u64; MOST_HOLDERS],
) -> Result<Granted, Refusal>
    ensures { let s = state.old in let o = opened sheet.now s in
        (answer_of result ≡ o.answer) × (state.new ≡ o.state)
        × (quantities.new ≡ quantities_found sheet.now s quantities.old) }
{
    let headed = Headed::of(sheet)?;
    let mut tables = Tables::empty();
    headed.read(&mut tables)?;
    // A slice, and no array from here on: `write_state` takes any state, and an array would ask more of its callers.
    if state.len() < STATE_WORDS {
        return Err(Refusal::Room);
    }
    // I and H are read again: handed on they would stand in the answer of `Headed::read`, to save two loads (docs/DECISIONS.md).
    let read = Read {
        tables: &tables,
        interties: words::intertie_count(sheet) as usize,
        holders: words::holder_count(sheet) as usize,
    };
    let total = year::steps_2_to_7(read, quantities, state);
    Ok(Granted {
        kw: total,
        passes: 0,
    })
}
