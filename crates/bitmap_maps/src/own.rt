// The tags that are a state's own word: of those that go through it, the ones that end there.
ghost use Rattle.std.specs.Prelude.{◌≡◌, ◌&&◌, ◌≤◌, eqb, length};
ghost use Rattle.matching.specs.Words.{Word};
ghost use Rattle.tagset.specs.Cutting.{words_of};
ghost use Rattle.bitmap_maps.specs.Through.{Waits, own_tags};

use crate::masks::goes_through;
use tagset::Words;

// Whether a tag is the word of d letters that it goes through.
fn is_own(tag: &[u8], d: usize, goes: bool) -> bool
    ensures { result ≡ (goes && eqb (length tag.now) d) }
{
    goes && tag.len() == d
}

// The tags that are the word of a state of depth d, from the mask of those that go through it.
pub fn own_tags(words: &Words, d: usize, mask: u16) -> u16
    ensures { let ts = words_of words.now in (p : Word) → Waits ts p d mask → result ≡ own_tags ts p }
{
    let mut v: u16 = 0;
    for u in (0..words.count()).rev() {
        // The mask first, as in `lay_map`.
        let goes = goes_through(mask, u);
        v = v * 2 + u16::from(goes && is_own(words.tag(u), d, goes));
    }
    v
}
