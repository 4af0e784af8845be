// Step 4b for one holder: its New Use commitments by rising rank, each covered first and then cut to the allowance left
// (docs/RULES.md, "Opening").
#![tactic(auto)]

ghost use Rattle.std.specs.Prelude.{◌≡◌, true, ◌+◌, ◌-◌, ◌^◌, ◌≤◌, ◌<◌, min, length, set};
ghost use Rattle.base.specs.Words.{at};
ghost use Rattle.step_4b.specs.NewUse.{next_rank, new_use};
ghost use Rattle.step_4b.specs.Workers.Used.{Zeros, Used};

use base::vectors;

// Covers a record's kW by the cover left on its intertie, which falls by that; hands back the rest. (The place is tested
// and indexed, since of `get_mut` the proof knows no number that the list ends with.)
fn use_cover(kw: u64, intertie: usize, cover: &mut [u64]) -> u64
    ensures { let before = cover.old in let covered = min kw (at before intertie) in
        (result ≡ kw - covered) × (cover.new ≡ set before intertie (at before intertie - covered)) }
{
    if cover.len() <= intertie {
        return kw;
    }
    let covered = kw.min(cover[intertie]);
    cover[intertie] -= covered;
    kw - covered
}

// Keeps on the intertie what stays of the rest; hands back the allowance left. (Tested and indexed, as in `use_cover`.)
fn use_allowance(rest: u64, intertie: usize, allowance: u64, kept: &mut [u64]) -> u64
    requires { at kept.old intertie + allowance < 2 ^ 64 }
    ensures { let before = kept.old in let stays = min rest allowance in
        (result ≡ allowance - stays) × (kept.new ≡ set before intertie (at before intertie + stays)) }
{
    let stays = rest.min(allowance);
    if intertie < kept.len() {
        kept[intertie] += stays;
    }
    allowance - stays
}

// Goes on by the record of a rank; hands back the allowance left. A rank without kW changes nothing. (Cover, kept kW and allowance one
// by one: `use_cover` takes the first, `use_allowance` the others, and a struct of all three would be taken apart for both.)
fn keep_rank(kw: u64, intertie: usize, allowance: u64, cover: &mut [u64], kept: &mut [u64]) -> u64
    requires { at kept.old intertie + allowance < 2 ^ 64 }
    ensures { next_rank kw intertie (record { cover = cover.old; kept = kept.old; allowance = allowance })
        ≡ record { cover = cover.new; kept = kept.new; allowance = result } }
{
    if kw == 0 {
        return allowance;
    }
    let rest = use_cover(kw, intertie, cover);
    use_allowance(rest, intertie, allowance, kept)
}

// Whether numbers are all 0. (orderly's `is_clear` asks it of words of 32 bits; here it is to be known where the answer is yes alone.)
#[tactic(auto, using(crate::proofs::UsedLaws::zeros))]
fn all_zeros(numbers: &[u64]) -> bool
    ensures { result ≡ true → Zeros numbers.now }
{
    numbers.iter().fold(0, |bits, number| bits | *number) == 0
}

// How many of the first ranks are to be gone through: past them, in sixteens, none has kW. (Sixteens, since their bits are put
// together without a branch: of 255 ranks, 5 of them with kW, a copy of this crate in Rust takes 59 ns, with single ranks 159, and
// 187 where none is left out. A while: `rposition` over `as_rchunks::<16>` finds a sixteen, which would have to be turned into a
// number of ranks again, by the rest before the sixteens.)
fn used_ranks(kw: &[u64], ranks: usize) -> usize
    requires { ranks ≤ length kw.now }
    ensures { Used kw.now ranks result }
{
    let mut used = ranks;
    while 16 <= used && all_zeros(&kw[used - 16..used]) {
        used -= 16;
    }
    used
}

// Keeps a holder's New Use by rising rank: writes into `kept` the kW that stay on each intertie,
// leaves in `cover` what isn't used, and hands back the allowance left. The record of rank r has
// its kW and its intertie at place r. (By place: tried over a zip, which tests the ends of both lists at each rank and takes 7 to 11
// per cent longer.)
pub fn keep_new_use(
    kw: &[u64],
    interties: &[u16],
    allowance: u64,
    cover: &mut [u64],
    kept: &mut [u64],
) -> u64
    ensures { new_use kw.now interties.now allowance cover.old (length kept.old)
        ≡ record { cover = cover.new; kept = kept.new; allowance = result } }
{
    vectors::clear(kept);
    let ranks = kw.len().min(interties.len());
    let used = used_ranks(kw, ranks);
    let mut left = allowance;
    for r in 0..used {
        left = keep_rank(kw[r], usize::from(interties[r]), left, cover, kept);
    }
    left
}
