// Whether two texts are the same.
ghost use Rattle.std.specs.Prelude.{◌≡◌};
ghost use Rattle.text.specs.Ascii.{same};

// Compares two texts byte by byte. (A function for its clause: `same` is what the definitions say.)
#[tactic(auto, unfolding(crate::specs::Ascii::same))]
pub fn same(a: &[u8], b: &[u8]) -> bool
    ensures { result ≡ same a.now b.now }
{
    a == b
}
