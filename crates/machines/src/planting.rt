// The tree of the prefixes, in the nexts of a machine's slots: a state's children, and 0 where it has none. A machine of m letters has
// m nexts and a vector in a slot.
ghost use Rattle.std.specs.Prelude.{◌≡◌, ◌+◌, ◌<◌, length, take};
ghost use Rattle.matching.specs.Machine.{states};
ghost use Rattle.tagset.specs.Cutting.{words_of};
ghost use Rattle.machines.specs.Rows.{sown_at, sown_count, Planting, Planted};

use tagset::Words;

// A child at a place, unless there is one; the number of states then.
fn sow(part: &mut [u16], i: usize, count: usize) -> usize
    requires { (i < length part.old) × (count < 65535) }
    ensures { (result ≡ sown_count part.old i count) × (part.new ≡ sown_at part.old i count) }
{
    if part[i] == 0 {
        part[i] = count as u16;
        return count + 1;
    }
    count
}

// The tree with the prefixes of tag t; the number of states then.
fn plant_tag(words: &Words, t: usize, m: usize, count: usize, part: &mut [u16]) -> usize
    requires { let ts = words_of words.now in (t < length ts) × Planting ts m t count part.old }
    ensures { let ts = words_of words.now in Planted (take (t + 1) ts) m result part.new }
{
    let tag = words.tag(t);
    let width = m + 1;
    let mut q = 0;
    let mut k = count;
    for (i, c) in tag.iter().enumerate() {
        let at = q * width + usize::from(*c);
        k = sow(part, at, k);
        q = usize::from(part[at]);
    }
    k
}

// The whole tree, in slots that hold zeros.
pub fn plant(words: &Words, m: usize, part: &mut [u16])
    requires { Planting (words_of words.now) m 0 1 part.old }
    ensures { let ts = words_of words.now in Planted ts m (states ts) part.new }
{
    let mut count = 1;
    for t in 0..words.count() {
        count = plant_tag(words, t, m, count, part);
    }
}
