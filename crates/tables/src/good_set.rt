// A set that was read and found good, as it is and folded.
ghost use Rattle.std.specs.Prelude.{◌≡◌, length, take};
ghost use Rattle.choosing.specs.Choosing.{lying_in};
ghost use Rattle.tables.specs.Props.{held_prop};
ghost use Rattle.tables.specs.Shape.{Held};

use kinds::Takes;
use kinds::folding::fold_all;
use tagset::{Places, SetFault, read_as, read_set};

// Its bytes; the same folded, at the front of an array; and the places of its tags.
#[derive(Clone, Copy)]
pub struct GoodSet<'a> {
    pub bytes: &'a [u8],
    pub folded: [u8; 576],
    pub places: Places,
    pub ghost held: { Held bytes.now (take (length bytes.now) folded) places (lying_in bytes.now places) } by { held_prop bytes.now (take (length bytes.now) folded) places (lying_in bytes.now places) },
}

impl<'a> GoodSet<'a> {
    ghost use Rattle.std.specs.Prelude.{MatchResult};
    ghost use Rattle.matching.specs.Tags.{word_as};
    ghost use Rattle.kinds.specs.Rows.{kinds_taken};
    ghost use Rattle.tagset.specs.Grammar.{bad_set, good_set, set_of};

    // The set in the bytes, where tags of some kinds are taken; or its fault.
    pub fn read(set: &'a [u8], takes: Takes) -> Result<GoodSet<'a>, SetFault>
        ensures { let s = set_of (kinds_taken takes) set.now in MatchResult result
            (λ good. (good.bytes.now ≡ set.now) × (s ≡ good_set (lying_in good.bytes.now good.places)))
            (λ fault. s ≡ bad_set fault) }
    {
        let places = read_set(set, takes)?;
        let mut folded = [0u8; 576];
        fold_all(set, &mut folded);
        Ok(GoodSet {
            bytes: set,
            folded,
            places,
        })
    }

    // The bytes as a kind reads them.
    pub fn read_as(&self, kind: usize) -> &[u8]
        ensures { result.now ≡ word_as kind self.now.bytes.now }
    {
        let n = self.bytes.len();
        read_as(kind, self.bytes, &self.folded[..n])
    }
}
