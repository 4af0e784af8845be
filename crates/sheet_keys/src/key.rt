// A key and its fields: 4 bits of kind, 6 of holder, 6 of intertie, 8 of rank, 8 of years. They are taken out, and put together,
// by shifts and masks; specs/Key says both by quotients and products.
ghost use Rattle.std.specs.Prelude.{◌≡◌};
ghost use Rattle.sheet_keys.specs.Key.{kind_of, holder_of, intertie_of, rank_of, years_of, cut_key};

// How many holders, interties and ranks a key can name, those that no sheet has included.
pub const HOLDERS: usize = 64;

pub const INTERTIES: usize = 64;

pub const RANKS: usize = 256;

// The bit where a field begins; the kind begins at bit 0.
pub const HOLDER_SHIFT: u32 = 4;

pub const INTERTIE_SHIFT: u32 = 10;

pub const RANK_SHIFT: u32 = 16;

pub const YEARS_SHIFT: u32 = 24;

// The most that a field can say: all its bits.
pub const KIND_MASK: u32 = 15;

pub const HOLDER_MASK: u32 = 63;

pub const INTERTIE_MASK: u32 = 63;

pub const RANK_MASK: u32 = 255;

pub const YEARS_MASK: u32 = 255;

// A key's fields. (The kind is a number: a key may hold a kind without a name.)
#[derive(Clone, Copy, Debug, PartialEq, Eq)]
pub struct Key {
    pub kind: u32,
    pub holder: u32,
    pub intertie: u32,
    pub rank: u32,
    pub years: u32,
}

// The fields of a key.
impl From<u32> for Key {
    ghost from_gives = { λ word key. (key.kind ≡ kind_of word)
        × (key.holder ≡ holder_of word)
        × (key.intertie ≡ intertie_of word)
        × (key.rank ≡ rank_of word)
        × (key.years ≡ years_of word) };

    fn from(word: u32) -> Key {
        Key {
            kind: word & KIND_MASK,
            holder: (word >> HOLDER_SHIFT) & HOLDER_MASK,
            intertie: (word >> INTERTIE_SHIFT) & INTERTIE_MASK,
            rank: (word >> RANK_SHIFT) & RANK_MASK,
            years: word >> YEARS_SHIFT,
        }
    }
}

// A key from its fields, each cut to its width.
impl From<Key> for u32 {
    ghost from_gives = { λ key word. word ≡ cut_key key.kind key.holder key.intertie key.rank key.years };

    fn from(key: Key) -> u32 {
        (key.kind & KIND_MASK)
            | ((key.holder & HOLDER_MASK) << HOLDER_SHIFT)
            | ((key.intertie & INTERTIE_MASK) << INTERTIE_SHIFT)
            | ((key.rank & RANK_MASK) << RANK_SHIFT)
            | ((key.years & YEARS_MASK) << YEARS_SHIFT)
    }
}
