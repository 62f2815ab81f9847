// The children of a settled state, sown tag by tag: each tag that goes on from it marks the child on its next byte.
// `table` and `s` go together through this crate, and not in a struct: one that holds a `&mut` asks each function that it passes through to
// say that it keeps the reference, which is a fact more in each contract.
ghost use Rattle.std.specs.Prelude.{◌≡◌, ◌+◌, ◌*◌, ◌<◌, ◌≤◌, ◌^◌, length};
ghost use Rattle.tagset.specs.Cutting.{words_of};
ghost use Rattle.bitmap.specs.Steps.{step, vector_at};
ghost use Rattle.bitmap_growing.specs.Growing.{Found, Growing, Sowable, Sowing, fail_to, kids, placed, sown_by};

use bitmap::slots::Slot;
use bitmap::steps::next_state;
use bitmap_maps::masks::goes_through;
use tagset::Words;

// The state whose turn it is, and how many states were placed before it was settled; and what its slot said while it waited: its depth, the
// state that it fails to, and the mask of the tags that go through it.
#[derive(Clone, Copy)]
pub struct Turn {
    pub state: usize,
    pub placed: usize,
    pub depth: usize,
    pub fail: usize,
    pub mask: u16,
}

// Where the child of state q on a byte fails to, where q itself fails to f.
fn failing(table: &[u16], s: usize, q: usize, f: usize, c: u8) -> usize
    requires { (s * 19 ≤ length table.now) × (f < s) }
    ensures { result ≡ fail_to q (step s table.now f c) }
{
    if q == 0 {
        return 0;
    }
    match next_state(table, s, f, c) {
        Some(to) => to.state,
        None => 0,
    }
}

// State r, which waits: its depth, where it fails to, and tag u in its mask.
fn place(table: &mut [u16], r: usize, d: usize, f: usize, u: usize)
    requires { (r * 19 + 18 < length table.old) × (d < 65536) × (f < 65536) × (u < 16) × (vector_at table.old r + 2 ^ u < 65536) }
    ensures { table.new ≡ placed table.old r d f (vector_at table.old r + 2 ^ u) }
{
    let at = r * 19;
    let mask = table[at + 18] + (1u16 << u);
    table[at] = d as u16;
    table[at + 17] = f as u16;
    table[at + 18] = mask;
}

// The child on a byte of the state whose turn it is, marked by tag u.
fn sow_one(table: &mut [u16], s: usize, turn: Turn, c: u8, u: usize)
    requires { Sowable table.old s turn.state turn.fail turn.depth turn.placed c u }
    ensures { table.new ≡ sown_by table.old s turn.state turn.fail turn.depth turn.placed c u }
{
    let slot = Slot {
        table,
        state: turn.state,
    };
    let r = turn.placed + slot.ones_below(c);
    let x = failing(table, s, turn.state, turn.fail, c);
    place(table, r, turn.depth + 1, x, u);
}

// Tag u, where it goes on from that state.
fn sow_tag(words: &Words, table: &mut [u16], s: usize, turn: Turn, u: usize)
    requires { let ts = words_of words.now in (u < length ts) × (Found ts turn.state turn.depth turn.fail turn.mask) × (Sowing ts s table.old turn.state turn.placed u) }
    ensures { Sowing (words_of words.now) s table.new turn.state turn.placed (u + 1) }
{
    if !goes_through(turn.mask, u) {
        return;
    }
    let tag = words.tag(u);
    if tag.len() <= turn.depth {
        return;
    }
    sow_one(table, s, turn, tag[turn.depth], u);
}

// All tags: the children of that state, behind the states placed before it was settled.
pub fn sow(words: &Words, table: &mut [u16], s: usize, turn: Turn)
    requires { let ts = words_of words.now in (Found ts turn.state turn.depth turn.fail turn.mask) × (Sowing ts s table.old turn.state turn.placed 0) }
    ensures { let ts = words_of words.now in Growing ts s table.new (turn.state + 1) (turn.placed + kids ts turn.state) }
{
    for u in 0..words.count() {
        sow_tag(words, table, s, turn, u);
    }
}
