// Laying the map of a state: byte by byte, from the tags that go through it.
ghost use Rattle.std.specs.Prelude.{◌≡◌, ◌+◌, ◌*◌, ◌<◌, length};
ghost use Rattle.matching.specs.Words.{Word};
ghost use Rattle.tagset.specs.Cutting.{words_of};
ghost use Rattle.bitmap_maps.specs.Laid.{MapLaid, TagLaid, Unlaid, with_byte};
ghost use Rattle.bitmap_maps.specs.Through.{Waits};

use crate::masks::goes_through;
use tagset::Words;

// Byte c into the map of slot q.
fn set_byte(table: &mut [u16], q: usize, c: u8)
    requires { q * 19 + 18 < length table.old }
    ensures { table.new ≡ with_byte table.old q c }
{
    table[q * 19 + usize::from(c / 16)] |= 1 << (c % 16);
}

// The byte by which a tag that goes through a state of depth d leads on, if there is one, into the state's map.
fn lay_tag(tag: &[u8], table: &mut [u16], q: usize, d: usize, goes: bool)
    requires { q * 19 + 18 < length table.old }
    ensures { TagLaid tag.now q d goes table.old table.new }
{
    if goes && d < tag.len() {
        set_byte(table, q, tag[d]);
    }
}

// The map of the state in slot q, of depth d, from the mask of the tags that go through it.
pub fn lay_map(words: &Words, table: &mut [u16], q: usize, d: usize, mask: u16)
    requires { Unlaid q table.old }
    ensures { let ts = words_of words.now in (p : Word) → Waits ts p d mask → MapLaid ts p q table.old table.new }
{
    table[q * 19] = 0;
    for u in 0..words.count() {
        // The mask first, since few tags go through a state, and a tag is cut from the letters.
        let goes = goes_through(mask, u);
        if goes {
            lay_tag(words.tag(u), table, q, d, goes);
        }
    }
}
