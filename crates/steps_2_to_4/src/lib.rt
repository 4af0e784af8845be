// Steps 2 to 4b carried out on the tables of a sheet: P and N of every pair, and what stays unassigned
// (docs/RULES.md, "Opening"). Apart from opening for the prover's time.
#![tactic(auto)]

mod claims;
mod granting;
mod step_2;
mod vectors;

ghost use Rattle.std.specs.Prelude.{◌≡◌, ℕ, true, ◌≤◌, length};
ghost use Rattle.base.specs.Limits.{most_interties, most_holders};
ghost use Rattle.base.specs.Words.{at, tab};
ghost use Rattle.sheet_reading.specs.Tables.{load_share_slot};
ghost use Rattle.steps_2_to_4.specs.Workers.Steps.{Taken};
ghost use Rattle.steps_2_to_4.specs.Reserved.{inputs, fit_tables, reserved};

use base::limits::{MOST_HOLDERS, MOST_INTERTIES, MOST_KW, MOST_LOAD_SHARE, MOST_PAIRS};
use base::vectors::all_within;
use sheet_reading::tables::{LOAD_SHARES, Read};

// Whether sizes, limits and load shares are in range. (Not base's `sizes_in_range`, which asks for one of each. Opened_state has the
// same line and ghost facts: a method of `Read` would be public, with a definition of its own, and what it answers would be taken
// apart into these facts in both.)
fn fit_tables(read: Read<'_>) -> bool
    ensures { let r = read.entry in result ≡ fit_tables r.tables.now.kw r.interties r.holders }
{
    if (MOST_INTERTIES < read.interties) | (MOST_HOLDERS < read.holders) {
        return false;
    }
    let kw = &read.tables.kw;
    let end = LOAD_SHARES + read.holders;
    all_within(&kw[..read.interties], MOST_KW) & all_within(&kw[LOAD_SHARES..end], MOST_LOAD_SHARE)
}

// The inputs of Steps 2 to 4b: what was read of a sheet, and the load share of each holder; sizes, limits and load shares in range.
#[derive(Clone, Copy)]
struct Inputs<'a> {
    read: Read<'a>,
    loads: &'a [u64],
    ghost few: { read.interties ≤ most_interties },
    ghost small: { read.holders ≤ most_holders },
    ghost ranged: { fit_tables read.tables.now.kw read.interties read.holders ≡ true },
    ghost weighed: { loads.now ≡ tab read.holders (λ (h : ℕ). at read.tables.now.kw (load_share_slot h)) },
    ghost sized: { length loads.now ≡ read.holders },
}

impl Inputs<'_> {
    // Steps 2 to 4b, over rows that have a number for each intertie and for each holder; answers T. (Here and below the lengths of
    // these rows stand in each contract: they are written in turn, and a struct of lent rows would be taken apart at each step.)
    fn steps_2_to_4(
        self,
        quantities: &mut [u64],
        pools: &mut [u64],
        pre_ra: &mut [u64; MOST_PAIRS],
        new_use: &mut [u64; MOST_PAIRS],
    ) -> u64
        requires { (length quantities.old ≡ self.read.holders) × (length pools.old ≡ self.read.interties) }
        ensures { let r = self.entry.read in let y = inputs r.tables.now r.interties r.holders in
            Taken y pre_ra.old new_use.old quantities.new pools.new pre_ra.new new_use.new result }
    {
        let total = self.step_2(pools, quantities);
        self.steps_3_and_4(quantities, pools, pre_ra, new_use);
        total
    }
}

// Reserves: carries out Steps 2 to 4b on the tables of a sheet. Writes the Load Share Quantity of each holder, what
// stays unassigned on each intertie, and P and N of every pair, over the first words of the rows and tables; answers
// T. Answers 0 and writes nothing where a size, a limit or a load share is above its most. (Four rows and no struct: three stand
// in the figures that the state is written from, and the Load Share Quantities with opening's caller. 0 and no Option: it can't fail
// for who has read a sheet that stands, whose T may be 0.)
pub fn reserve(
    read: Read<'_>,
    quantities: &mut [u64; MOST_HOLDERS],
    unassigned: &mut [u64; MOST_INTERTIES],
    pre_ra: &mut [u64; MOST_PAIRS],
    new_use: &mut [u64; MOST_PAIRS],
) -> u64
    ensures { let r = read.entry in record {
      total = result;
      quantities = quantities.new;
      left = unassigned.new;
      pre_ra = pre_ra.new;
      new_use = new_use.new;
    }
        ≡ reserved r.tables.now r.interties r.holders
        quantities.old unassigned.old pre_ra.old new_use.old }
{
    if !fit_tables(read) {
        return 0;
    }
    let kw = &read.tables.kw;
    let end = LOAD_SHARES + read.holders;
    let inputs = Inputs {
        read,
        loads: &kw[LOAD_SHARES..end],
    };
    inputs.steps_2_to_4(
        &mut quantities[..read.holders],
        &mut unassigned[..read.interties],
        pre_ra,
        new_use,
    )
}
