// Carry: next year's sheet, from this year's sheet and state (docs/RULES.md, "Beside the year").
#![tactic(auto)]

mod draft;
mod key;

ghost use Rattle.std.specs.Prelude.{◌≡◌, false};
ghost use Rattle.base.specs.Refused.{number_in, answer_of};
ghost use Rattle.carrying.specs.Carry.{early_refusal, sizes_differ, carried};

use base::Granted;
use base::refusals::Refusal;
use draft::Draft;

// Refusals 1 to 4 of the sheet, 5 and 6 of the state, 7 where the stage is not 4.
#[tactic(auto, using(call::proofs::LadderLaws::passes, call::proofs::LadderLaws::stops), unfolding(crate::specs::Carry::early_refusal))]
fn check_early(sheet: &[u8], state: &[u32]) -> Result<(), Refusal>
    ensures { number_in result ≡ early_refusal sheet.now state.now }
{
    sheet_reading::refusal::sheet_refusal(sheet)?;
    call::check_open(state)
}

// Whether the sheet's sizes differ from the state's.
#[tactic(auto, using(crate::proofs::CarryLaws::sizes_read))]
fn sizes_differ(sheet: &[u8], state: &[u32]) -> bool
    requires { early_refusal sheet.now state.now ≡ 0 }
    ensures { result ≡ sizes_differ sheet.now state.now }
{
    (sheet_records::words::intertie_count(sheet) != state::intertie_count(state))
        | (sheet_records::words::holder_count(sheet) != state::holder_count(state))
}

// Carries where refusals 1 to 7 let pass and the sizes are the same.
#[tactic(auto, using(crate::proofs::CarryLaws::length_stands))]
fn carry_on(sheet: &[u8], state: &[u32], output: &mut [u8]) -> Result<Granted, Refusal>
    requires { (early_refusal sheet.now state.now ≡ 0) × (sizes_differ sheet.now state.now ≡ false) }
    ensures { let o = carried sheet.now state.now output.old in
        (answer_of result ≡ o.answer) × (output.new ≡ o.output) }
{
    let interties = state::intertie_count(state);
    let holders = state::holder_count(state);
    let mut draft = Draft::new();
    draft.keep_records(sheet);
    draft.add_locks(state);
    if draft.does_not_fit(holders as usize, output.len()) {
        return Err(Refusal::Carry);
    }
    draft.write(interties, holders, output);
    Ok(Granted { kw: 0, passes: 0 })
}

// Writes next year's sheet into the output, or refuses it and leaves the output as it was.
#[tactic(auto, using(crate::proofs::CarryLaws::refused_early, crate::proofs::CarryLaws::refused_sizes))]
pub fn carry(sheet: &[u8], state: &[u32], output: &mut [u8]) -> Result<Granted, Refusal>
    ensures { let o = carried sheet.now state.now output.old in
        (answer_of result ≡ o.answer) × (output.new ≡ o.output) }
{
    check_early(sheet, state)?;
    if sizes_differ(sheet, state) {
        return Err(Refusal::Carry);
    }
    carry_on(sheet, state, output)
}
