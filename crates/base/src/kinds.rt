// The kinds of record, each named here once; specs/Kinds has the same numbers.
ghost use Rattle.std.specs.Prelude.{◌≡◌};
ghost use Rattle.base.specs.Kind.{number_of};
ghost use Rattle.base.specs.Kinds.{limit_kind, new_use_kind};
ghost use Rattle.base.specs.Numbered.{Decodes};

use crate::numbered::Unnamed;

// The kinds of record by their numbers. (`number` and `try_from` are written here, in stages.rt and in encoding.rt alike, and
// `number` in refusals.rt: an impl can't come from a macro of our own, and no trait can give an enum its `TryFrom`. `number` and not
// `From` for u32, since `kind.number()` says what the number is, where `u32::from(kind)` says its width.)
#[derive(Clone, Copy, Debug, PartialEq, Eq)]
pub enum Kind {
    // Limit (Maximum Import Capability) of an intertie.
    Limit = 1,
    // Outside right on an intertie.
    OutsideRight = 2,
    // Load share of a holder.
    LoadShare = 3,
    // Existing contract: holder, intertie, years.
    ExistingContract = 4,
    // Pre-RA commitment: holder, intertie, years.
    PreRaCommitment = 5,
    // New Use commitment: holder, intertie, years, rank.
    NewUseCommitment = 6,
}

impl Kind {
    // The number by which a key names a kind.
    pub fn number(self) -> u32
        ensures { result ≡ number_of self }
    {
        self as u32
    }
}

impl TryFrom<u32> for Kind {
    type Error = Unnamed;

    ghost try_from_gives = { Decodes number_of limit_kind new_use_kind };

    fn try_from(number: u32) -> Result<Kind, Unnamed> {
        match number {
            1 => Ok(Kind::Limit),
            2 => Ok(Kind::OutsideRight),
            3 => Ok(Kind::LoadShare),
            4 => Ok(Kind::ExistingContract),
            5 => Ok(Kind::PreRaCommitment),
            6 => Ok(Kind::NewUseCommitment),
            _ => Err(Unnamed),
        }
    }
}
