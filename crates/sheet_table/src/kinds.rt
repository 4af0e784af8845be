// The names of the kinds 1 to 6.
ghost use Rattle.std.specs.Prelude.{◌≡◌};
ghost use Rattle.sheet_table.specs.Kinds.{name, named};

use base::kinds::Kind;

// The name of a kind.
pub(crate) fn name(kind: Kind) -> &'static [u8]
    ensures { result.now ≡ name kind }
{
    match kind {
        Kind::Limit => b"limit",
        Kind::OutsideRight => b"outside",
        Kind::LoadShare => b"load",
        Kind::ExistingContract => b"existing",
        Kind::PreRaCommitment => b"prera",
        Kind::NewUseCommitment => b"newuse",
    }
}

// The kinds.
const KINDS: [Kind; 6] = [
    Kind::Limit,
    Kind::OutsideRight,
    Kind::LoadShare,
    Kind::ExistingContract,
    Kind::PreRaCommitment,
    Kind::NewUseCommitment,
];

// The kind that a field names. (Kinds of call are found in the same way, by journal: kinds and names are all that differs, and the
// search is one chain.)
pub(crate) fn named(field: &[u8]) -> Option<Kind>
    ensures { result ≡ named field.now }
{
    KINDS
        .iter()
        .find(|kind| text::same(field, name(**kind)))
        .copied()
}
