// Whether a state is orderly (docs/RULES.md, "The year's state"), which every call of the year asks first. Apart from state,
// which says what orderly is, for the prover's time.
#![tactic(auto)]

mod balance;
mod fields;
mod locks;
mod pending;
mod rows;

ghost use Rattle.std.specs.Prelude.{◌≡◌, ℕ, ◌<◌, Bool};
ghost use Rattle.base.specs.Refused.{number_in};
ghost use Rattle.base.specs.Sums.{all_to};
ghost use Rattle.state.specs.Orderly.{state_refusal};
ghost use Rattle.orderly.specs.Workers.Check.{rows_in_order};

use base::refusals::Refusal;
use rows::Rows;

// What every call of the year begins with: refusal 5 for a state under 16,000 words, 6 for one that is not orderly.
#[tactic(auto, using(crate::proofs::CheckLaws::checked))]
pub fn check_state(state: &[u32]) -> Result<(), Refusal>
    ensures { number_in result ≡ state_refusal state.now }
{
    let rows = Rows::of(state)?;
    if rows_in_order(&rows) {
        Ok(())
    } else {
        Err(Refusal::NotOrderly)
    }
}

// Whether a test holds of each number below a count. (Each test is made: `all` would branch between them. A loop: a fold with `&`
// was tried, and its law wants what the test answers of any number, where that is known below the count only.)
fn all_of<F: Fn(u32) -> bool>(count: u32, test: F) -> bool
    requires { (n : ℕ) → n < count → F.pre test n }
    ensures { (p : ℕ → Bool) → ((n : ℕ) (b : Bool) → n < count → F.post test n b → b ≡ p n) → result ≡ all_to count p }
{
    let mut all = true;
    for n in 0..count {
        all = all & test(n);
    }
    all
}

// All but the sizes and the stage.
fn rows_in_order(rows: &Rows) -> bool
    ensures { result ≡ rows_in_order rows.now }
{
    fields::fields_in_range(rows)
        & balance::limits_balance(rows)
        & locks::locks_in_order(rows)
        & pending::pending_in_order(rows)
}
