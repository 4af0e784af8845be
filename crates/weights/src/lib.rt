// The holders' weights in a closing (docs/RULES.md, "Calls of the year"): the load share, or the sellers' average where that
// is 0. Apart from closing for the prover's time.
#![tactic(auto)]

ghost use Rattle.std.specs.Prelude.{◌≡◌, ℕ, ◌*◌, ◌%◌, ◌^◌, ◌≤◌, ◌<◌, Some, None};
ghost use Rattle.std.specs.Int.Count.{ones};
ghost use Rattle.base.specs.Choice.{pick};
ghost use Rattle.base.specs.Limits.{most_holders};
ghost use Rattle.base.specs.Sums.{sum_to};
ghost use Rattle.base.specs.Words.{fill};
ghost use Rattle.state.specs.Layout.{holders, load_share_of, sellers_of};
ghost use Rattle.weights.specs.Weight.{seller_bit, average_load, weight_of, weighable, weighed};

use base::limits::{MOST_HOLDERS, STATE_WORDS, words};
use state::layout;
use state::layout::ROW_WORDS;
use std::marker::Model;

// Writes each holder's weight. Does nothing where the state is under 16,000 words or has over 32 holders. (And says
// no error: a closing has tested the state. Lent, since the clause says of any array what stays in it: past the holders, and
// all where nothing is done. An array for an answer could say that of zeros alone.)
pub fn weigh(state: &[u32], weights: &mut [u64; MOST_HOLDERS])
    ensures { weights.new ≡ weighed state.now weights.old }
{
    if let Some(holders) = Holders::of(state) {
        holders.write_weights(weights);
    }
}

// The holders, at most 32, of a state that has its words; a clause sees the words.
#[derive(Drop)]
struct Holders<'a> {
    words: &'a [u32],
    count: u32,
}

impl<'a> Model for Holders<'a> {
    ghost use Rattle.std.specs.Prelude.{ℕ, List};
    ghost use Rattle.weights.specs.Workers.Count.{Counted};

    ghost Value = { List ℕ };

    ghost view = { λ holders. holders.words.now };

    ghost invariant = { λ holders. Counted holders.words.now holders.count };
}

impl<'a> Holders<'a> {
    // None where a state is under 16,000 words or has over 32 holders.
    fn of(state: &'a [u32]) -> Option<Holders<'a>>
        ensures { let s = state.now in result ≡ pick (weighable s) (Some s) None }
    {
        let count = state::holder_count(state);
        if (STATE_WORDS <= state.len()) & (count <= words::MOST_HOLDERS) {
            Some(Holders {
                words: state,
                count,
            })
        } else {
            None
        }
    }
}

impl Holders<'_> {
    // H.
    fn count(&self) -> u32
        ensures { (result ≡ holders self.now) × (result ≤ most_holders) }
    {
        self.count
    }

    // A holder's load share. (By an index, which tests no place: the sum over a mask's sellers reads one for each holder. `sellers` is
    // read once a holder, by the state's own reader.)
    fn load_share(&self, holder: u32) -> u32
        requires { holder < holders self.now }
        ensures { result ≡ load_share_of self.now holder }
    {
        self.words[ROW_WORDS * (layout::LOAD_SHARE as usize) + (holder as usize)]
    }

    // A holder's sellers.
    fn sellers(&self, holder: u32) -> u32
        ensures { result ≡ sellers_of self.now holder }
    {
        state::word(self.words, layout::SELLERS, holder)
    }

    // Writes each holder's weight. (By place: a holder is a number of 32 bits, as the count and the state's readers have it; the place
    // that `enumerate` gives would be cast back to it, and the count to a place.)
    fn write_weights(&self, weights: &mut [u64; MOST_HOLDERS])
        ensures { let s = self.now in weights.new ≡ fill (holders s) (weight_of s) weights.old }
    {
        for holder in 0..self.count() {
            weights[holder as usize] = self.weight(holder);
        }
    }

    // A holder's weight.
    #[tactic(auto, using(crate::proofs::WeightLaws::own_load, crate::proofs::WeightLaws::sellers_average))]
    fn weight(&self, holder: u32) -> u64
        requires { holder < holders self.now }
        ensures { result ≡ weight_of self.now holder }
    {
        let load = u64::from(self.load_share(holder));
        if load == 0 {
            return self.average_load(holder);
        }
        load
    }

    // The average load share of a holder's sellers, each counted once; 0 without sellers.
    #[tactic(auto, using(crate::proofs::WeightLaws::no_average, crate::proofs::WeightLaws::some_average))]
    fn average_load(&self, holder: u32) -> u64
        ensures { result ≡ average_load self.now holder }
    {
        let sellers = self.sellers(holder);
        let mask = self.among_holders(sellers);
        let count = seller_count(mask);
        self.sellers_load(sellers).checked_div(count).unwrap_or(0)
    }

    // A mask of sellers without the bits that stand for no holder.
    fn among_holders(&self, sellers: u32) -> u32
        ensures { result ≡ sellers % 2 ^ holders self.now }
    {
        (u64::from(sellers) % (1u64 << self.count())) as u32
    }

    // The load shares of the sellers of a mask together.
    fn sellers_load(&self, sellers: u32) -> u64
        ensures { let s = self.now in result ≡ sum_to (holders s) (λ (j : ℕ). seller_bit sellers j * load_share_of s j) }
    {
        let mut load: u64 = 0;
        for holder in 0..self.count() {
            load += load_if_seller(sellers, holder, self.load_share(holder));
        }
        load
    }
}

// How many sellers a mask has: its ones.
fn seller_count(sellers: u32) -> u64
    ensures { result ≡ ones sellers }
{
    u64::from(sellers.count_ones())
}

// A holder's load share if it is a seller of the mask, else 0. (A product, so that no branch stands in the sum.)
fn load_if_seller(sellers: u32, holder: u32, load: u32) -> u64
    requires { holder < most_holders }
    ensures { (result ≡ seller_bit sellers holder * load) × (result ≤ load) }
{
    u64::from((sellers >> holder) % 2) * u64::from(load)
}
