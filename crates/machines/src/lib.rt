// One machine: what it sees of a set, the states that it needs, and its slots (docs/RULES.md, 2 and 3).
#![tactic(auto)]

ghost use Rattle.std.specs.Prelude.{◌≡◌, map, ◌<◌, ◌≤◌, length, take};
ghost use Rattle.matching.specs.Machine.{states};
ghost use Rattle.tagset.specs.Cutting.{words_of};
ghost use Rattle.machines.specs.Letters.{letter_by};
ghost use Rattle.machines.specs.Rows.{Fit, Roomy, Filled};

use counting::known_front;
use filling::fill;
use planting::plant;
use tagset::Words;

mod counting;
mod filling;
pub mod planting;
mod words;

// What a machine sees of a byte.
fn letter(c: u8, shift: usize, mask: u8) -> u8
    requires { shift < 8 }
    ensures { result ≡ letter_by shift mask c }
{
    (c >> shift) & mask
}

// What it sees of a whole set: a tag's letters lie where its bytes lie.
pub fn spell(set: &[u8], shift: usize, mask: u8, out: &mut [u8])
    requires { (shift < 8) × (length set.now ≤ length out.old) }
    ensures { take (length set.now) out.new ≡ map (letter_by shift mask) set.now }
{
    for (i, c) in set.iter().enumerate() {
        out[i] = letter(*c, shift, mask);
    }
}

// The states of a machine: its distinct prefixes, the empty one included. They are counted from the tags alone: a tag adds those of its
// prefixes that are longer than what it shares with one before it.
pub fn count_states(words: &Words) -> usize
    requires { Fit (words_of words.now) }
    ensures { result ≡ states (words_of words.now) }
{
    let mut count = 1;
    for t in 0..words.count() {
        count += words.tag(t).len() - known_front(words, t);
    }
    count
}

// The slots of a machine of m letters, whatever stood there.
// `words`, `m` and `part` go on together from here, and not in a struct: one that holds a `&mut` asks each function that it passes through
// to say that it keeps the reference. `Fit` and `Roomy` stay facts, since `Words` is taken too where they are not asked.
pub fn make_slots(words: &Words, m: usize, part: &mut [u16])
    requires { let ts = words_of words.now in (Fit ts) × (Roomy ts m (length part.old)) }
    ensures { Filled (words_of words.now) m part.new }
{
    part.fill(0);
    plant(words, m, part);
    fill(words, m, part);
}
