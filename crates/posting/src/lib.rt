// The posting of a sheet (docs/RULES.md, "Beside the year"): what program `post` prints, as numbers.
#![tactic(auto)]

mod lines;
pub mod rows;

ghost use Rattle.std.specs.Prelude.{◌≡◌};
ghost use Rattle.base.specs.Refused.{answer_of};
ghost use Rattle.posting.specs.Post.{posted};

use base::Granted;
use base::limits::{MOST_HOLDERS, STATE_WORDS};
use base::refusals::Refusal;
use rows::NUMBERS;

// Posts a sheet: T and the numbers of its lines, a row for each figure, or its refusal. (The lines are lent, as C lends them.)
pub fn post(sheet: &[u8], lines: &mut [u64; NUMBERS]) -> Result<Granted, Refusal>
    ensures { let p = posted sheet.now lines.old in
        (answer_of result ≡ p.answer) × (lines.new ≡ p.lines) }
{
    let mut state = [0u32; STATE_WORDS];
    let mut quantities = [0u64; MOST_HOLDERS];
    let granted = opening::open_with_quantities(sheet, &mut state, &mut quantities)?;
    let interties = state::intertie_count(&state) as usize;
    let holders = state::holder_count(&state) as usize;
    lines::intertie_lines(&state, interties, holders, lines);
    lines::holder_lines(&state, &quantities, holders, lines);
    Ok(granted)
}
