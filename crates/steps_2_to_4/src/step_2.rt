// Step 2: what is available on each intertie, T, and the Load Share Quantities.
ghost use Rattle.std.specs.Prelude.{◌≡◌, ◌*◌, ◌/◌, ◌≤◌, length};
ghost use Rattle.base.specs.Limits.{most_total_kw, most_load_share};
ghost use Rattle.steps_2_to_4.specs.Reserved.{inputs};
ghost use Rattle.steps_2_to_4.specs.Workers.Steps.{Available};

use super::{Inputs, vectors};
use base::vectors::sum_of;
use sheet_reading::tables::OUTSIDE;

// Load Share Quantity = T × load share / all load shares, rounded down; 0 if all are 0.
fn quantity(total: u64, load: u64, all: u64) -> u64
    requires { (total ≤ most_total_kw) × (load ≤ most_load_share) }
    ensures { result ≡ total * load / all }
{
    (total * load).checked_div(all).unwrap_or(0)
}

impl Inputs<'_> {
    // Step 2: what is available on each intertie and the Load Share Quantities; answers T.
    pub(super) fn step_2(self, pools: &mut [u64], quantities: &mut [u64]) -> u64
        requires { (length pools.old ≡ self.read.interties) × (length quantities.old ≡ self.read.holders) }
        ensures { let r = self.entry.read in let y = inputs r.tables.now r.interties r.holders in
            Available y pools.new quantities.new result }
    {
        let kw = &self.read.tables.kw;
        let loads = self.loads;
        vectors::differences(kw, &kw[OUTSIDE..], pools);
        let total = sum_of(pools);
        let all = sum_of(loads);
        vectors::fill_by(quantities, |h| quantity(total, loads[h], all));
        total
    }
}
