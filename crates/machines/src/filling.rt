// The slots of a machine from its tree, in place and level by level: where a state has no child, its next is that of the state it fails
// to, whose word is shorter. By number it would not do: a state may fail to one that is numbered after it.
ghost use Rattle.std.specs.Prelude.{◌≡◌, cond, ◌+◌, ◌<◌, ◌≤◌, eqb, length, get_or};
ghost use Rattle.matching.specs.Machine.{states};
ghost use Rattle.tagset.specs.Cutting.{words_of};
ghost use Rattle.machines.specs.Rows.{cell, pick_of, Made, Started, Filling, Level, Planted, Fit, Roomy, Filled};

use super::counting::known_front;
use super::words::vector_of;
use tagset::Words;

// A tag on its way down the tree: how many letters it shares with a tag before it, the state of the letters that it has gone, and the
// state that this one fails to.
#[derive(Clone, Copy)]
struct Walk {
    front: usize,
    at: usize,
    fail: usize,
}

// The tags before their first letters.
fn start(words: &Words) -> [Walk; 16]
    ensures { Started (words_of words.now) result }
{
    let mut walks = [Walk {
        front: 0,
        at: 0,
        fail: 0,
    }; 16];
    for t in 0..words.count() {
        walks[t] = Walk {
            front: known_front(words, t),
            at: 0,
            fail: 0,
        };
    }
    walks
}

fn pick(a: u16, b: u16) -> u16
    ensures { result ≡ pick_of a b }
{
    if a == 0 { b } else { a }
}

// Slot q, with its children kept and the other nexts from slot x, and its vector.
fn make_slot(q: usize, x: usize, m: usize, vector: u16, part: &mut [u16])
    requires { (m ≤ 256) × (q < 513) × (x < 513) × (cell m q m < length part.old) × (cell m x m < length part.old) }
    ensures { Made m q x vector part.old part.new }
{
    let width = m + 1;
    let a = q * width;
    let b = x * width;
    for c in 0..m {
        part[a + c] = pick(part[a + c], part[b + c]);
    }
    part[a + m] = vector;
}

fn next_of(part: &[u16], q: usize, c: usize, m: usize) -> usize
    requires { (m ≤ 256) × (q < 513) × (c < m) × (cell m q c < length part.now) }
    ensures { result ≡ get_or part.now (cell m q c) 0 }
{
    let width = m + 1;
    usize::from(part[q * width + c])
}

// The state to which a state of d + 1 letters fails, c the last of them and f where the state of the others fails to.
fn failing(part: &[u16], f: usize, d: usize, c: usize, m: usize) -> usize
    requires { (m ≤ 256) × (f < 513) × (c < m) × (cell m f c < length part.now) }
    ensures { result ≡ cond (eqb d 0) 0 (get_or part.now (cell m f c) 0) }
{
    if d == 0 {
        return 0;
    }
    next_of(part, f, c, m)
}

// The slot of the first d + 1 letters of tag t, unless a tag before it has these too; its walk goes on to that state.
fn deepen(words: &Words, t: usize, d: usize, m: usize, walks: &mut [Walk; 16], part: &mut [u16])
    requires { let ts = words_of words.now in (t < length ts) × Filling ts m d t walks.old part.old }
    ensures { Level (words_of words.now) m d (t + 1) walks.new part.new }
{
    let tag = words.tag(t);
    if tag.len() <= d {
        return;
    }
    let walk = walks[t];
    let c = usize::from(tag[d]);
    let q = next_of(part, walk.at, c, m);
    let x = failing(part, walk.fail, d, c, m);
    walks[t] = Walk {
        front: walk.front,
        at: q,
        fail: x,
    };
    if d < walk.front {
        return;
    }
    let vector = vector_of(&tag[..d + 1], words);
    make_slot(q, x, m, vector, part);
}

// The slots of the words of d + 1 letters.
fn level(words: &Words, d: usize, m: usize, walks: &mut [Walk; 16], part: &mut [u16])
    requires { Filling (words_of words.now) m d 0 walks.old part.old }
    ensures { Level (words_of words.now) m (d + 1) 0 walks.new part.new }
{
    for t in 0..words.count() {
        deepen(words, t, d, m, walks, part);
    }
}

// All slots. The start state's nexts are its children as they stand.
pub fn fill(words: &Words, m: usize, part: &mut [u16])
    requires { let ts = words_of words.now in (Fit ts) × (Roomy ts m (length part.old)) × (Planted ts m (states ts) part.old) }
    ensures { Filled (words_of words.now) m part.new }
{
    let mut walks = start(words);
    part[m] = vector_of(&words.letters[..0], words);
    for d in 0..32 {
        level(words, d, m, &mut walks, part);
    }
}
