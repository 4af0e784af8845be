// Step 5: the import capability that remains, assigned by load share to the holders that haven't received their share of
// it in Steps 3 and 4 (docs/RULES.md, "Opening").
#![tactic(auto)]

ghost use Rattle.std.specs.Prelude.{◌≡◌, ◌≤◌, true, ◌&&◌, ◌-◌, ◌*◌, ◌/◌, length, leb, eqb};
ghost use Rattle.base.specs.Choice.{pick};
ghost use Rattle.base.specs.Limits.{most_holders};
ghost use Rattle.step_5.specs.Round.{eligible, together, gross_remaining, newly_excluded, round_marks};
ghost use Rattle.step_5.specs.Shares.{all_eligible, settled, step5_shares};
ghost use Rattle.step_5.specs.Outcome.{fit_numbers, step5};
ghost use Rattle.step_5.specs.Workers.Fit.{Marks, Addends, Factors, Quota};

use base::limits::{MOST_HELD_KW, MOST_HOLDERS, MOST_LOAD_SHARE};
use base::vectors;

// The mark of a holder that may yet get a share. (Marks are numbers and no enum: a round adds what it excludes to the mark
// and to their count, without a branch.)
const ELIGIBLE: u8 = 0;

// And of one that gets none.
const EXCLUDED: u8 = 1;

// Whether T and every holder's numbers are within their ranges. (Not one with share_out's: its limits are others, and most of its
// lists are told by their bits.)
#[tactic(auto, using(crate::proofs::FitLaws::fits))]
fn fit_numbers(total: u64, held: &[u64], loads: &[u64]) -> bool
    requires { length loads.now ≡ length held.now }
    ensures { result ≡ fit_numbers total held.now loads.now }
{
    (total <= MOST_HELD_KW)
        & (vectors::all_within(held, MOST_HELD_KW) & vectors::all_within(loads, MOST_LOAD_SHARE))
}

// The number if a holder's own mark is the one asked for, else 0.
fn if_marked(own: u8, mark: u8, number: u64) -> u64
    ensures { result ≡ pick (eqb own mark) number 0 }
{
    if own == mark { number } else { 0 }
}

// What the holders with this mark have together.
#[tactic(auto, using(crate::proofs::LoopLaws::summing))]
fn sum_marked(mark: u8, marks: &[u8], numbers: &[u64]) -> u64
    requires { Addends marks.now numbers.now }
    ensures { let numbers = numbers.now in result ≡ together (length numbers) mark marks.now numbers }
{
    let mut sum = 0;
    for (own, number) in marks.iter().zip(numbers) {
        sum += if_marked(*own, mark, *number);
    }
    sum
}

// G, what the excluded leave of T.
#[tactic(auto, unfolding(crate::specs::Round::gross_remaining))]
fn gross_remaining(total: u64, held: &[u64], marks: &[u8]) -> u64
    requires { Addends marks.now held.now }
    ensures { result ≡ gross_remaining total held.now marks.now }
{
    total.saturating_sub(sum_marked(EXCLUDED, marks, held))
}

// 1 if a round excludes the holder: eligible, and held × V, which is `all`, at least G × load share.
fn newly_excluded(mark: u8, held: u64, load: u64, gross: u64, all: u64) -> u8
    requires { Factors held load gross all }
    ensures { result ≡ pick (eqb mark eligible && leb (gross * load) (held * all)) 1 0 }
{
    u8::from((mark == ELIGIBLE) & (gross * load <= held * all))
}

// A holder's share: if it is eligible G × load share / V, which is `all`, rounded down, minus held.
fn share_of(mark: u8, held: u64, load: u64, gross: u64, all: u64) -> u64
    requires { Quota mark held load gross all }
    ensures { result ≡ pick (eqb mark eligible) (gross * load / all - held) 0 }
{
    if mark == ELIGIBLE {
        gross * load / all - held
    } else {
        0
    }
}

// What Step 5 is made over: T, and of at most 32 holders the kW that each holds and its load share, all in range.
#[derive(Clone, Copy)]
struct Holders<'a> {
    total: u64,
    held: &'a [u64],
    loads: &'a [u64],
    ghost few: { length held.now ≤ most_holders },
    ghost paired: { length loads.now ≡ length held.now },
    ghost ranged: { fit_numbers total held.now loads.now ≡ true },
}

impl Holders<'_> {
    // Makes one round: excludes its holders together and hands back how many they are. (Held and load shares by place: what a zip of
    // `iter_mut` lends is lost to the proof.)
    fn exclude_round(self, marks: &mut [u8]) -> u8
        requires { Marks (length self.held.now) marks.old }
        ensures { let total = self.entry.total in let held = self.entry.held.now in let loads = self.entry.loads.now in
            (result ≡ newly_excluded total held loads marks.old) × (marks.new ≡ round_marks total held loads marks.old) }
    {
        let gross = gross_remaining(self.total, self.held, marks);
        let all = sum_marked(ELIGIBLE, marks, self.loads);
        let mut newly = 0;
        for (i, mark) in marks.iter_mut().enumerate() {
            let out = newly_excluded(*mark, self.held[i], self.loads[i], gross, all);
            *mark += out;
            newly += out;
        }
        newly
    }

    // Repeats until a round excludes none. (A loop: what ends it is what a round answers, and no list is walked. As a `while` over that
    // answer it would have no body.)
    fn settle(self, marks: &mut [u8])
        requires { marks.old ≡ all_eligible self.held.now }
        ensures { marks.new ≡ settled self.entry.total self.entry.held.now self.entry.loads.now }
    {
        loop {
            if self.exclude_round(marks) == 0 {
                break;
            }
        }
    }

    // Writes the shares of holders whose marks are settled. (The other lists by place, as in a round.)
    fn write_shares(self, marks: &[u8], shares: &mut [u64])
        requires { (marks.now ≡ settled self.total self.held.now self.loads.now) × (length shares.old ≡ length self.held.now) }
        ensures { shares.new ≡ step5_shares self.entry.total self.entry.held.now self.entry.loads.now }
    {
        let gross = gross_remaining(self.total, self.held, marks);
        let all = sum_marked(ELIGIBLE, marks, self.loads);
        for (i, share) in shares.iter_mut().enumerate() {
            *share = share_of(marks[i], self.held[i], self.loads[i], gross, all);
        }
    }

    // Settles who is excluded, from marks that are all eligible, and writes the shares.
    fn assign(self, marks: &mut [u8], shares: &mut [u64])
        requires { (marks.old ≡ all_eligible self.held.now) × (length shares.old ≡ length self.held.now) }
        ensures { shares.new ≡ step5_shares self.entry.total self.entry.held.now self.entry.loads.now }
    {
        self.settle(marks);
        self.write_shares(marks, shares);
    }
}

// Writes the Step 5 share of each holder, who holds `held` kW by Steps 3 and 4, into the first places of
// `shares`. Answers false and writes nothing where the lists are of unlike length or over 32, `shares`
// is shorter, T or a holder's kW is above 2,880,000,000 or a load share above 100,000,000. (A bool for lengths and ranges
// alike: the rules have no refusal of Step 5, and its one caller, an opening, gives it what fits and doesn't read the answer.)
pub fn step_5_shares(total_kw: u64, held: &[u64], loads: &[u64], shares: &mut [u64]) -> bool
    ensures { let made = step5 total_kw held.now loads.now shares.old in
        (result ≡ made.fit) × (shares.new ≡ made.output) }
{
    let n = held.len();
    if !vectors::lengths_fit(n, loads.len(), shares.len()) {
        return false;
    }
    if !fit_numbers(total_kw, held, loads) {
        return false;
    }
    let mut marks = [ELIGIBLE; MOST_HOLDERS];
    let holders = Holders {
        total: total_kw,
        held,
        loads,
    };
    holders.assign(&mut marks[..n], &mut shares[..n]);
    true
}
