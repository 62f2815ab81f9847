// A state's turn: its map, its first child and its vector into its slot, and its children behind the states placed before.
ghost use Rattle.std.specs.Prelude.{◌≡◌, ◌+◌, ◌*◌, ◌<◌, ◌≤◌, length};
ghost use Rattle.tagset.specs.Cutting.{words_of};
ghost use Rattle.bitmap.specs.Levels.{by_level};
ghost use Rattle.bitmap.specs.Steps.{ones_over};
ghost use Rattle.bitmap_growing.specs.Growing.{Closable, Growing, closed, first_behind, inherits};

use super::sowing::{Turn, sow};
use bitmap::slots::Slot;
use bitmap_maps::counting::children;
use bitmap_maps::laying::lay_map;
use bitmap_maps::own::own_tags;
use tagset::Words;

// The vector of the state that q fails to; none for the start state.
fn inherited(q: usize, fails: &Slot) -> u16
    ensures { result ≡ inherits q fails.now.table.now fails.now.state }
{
    if q == 0 { 0 } else { fails.vector() }
}

// The first of n children behind k states.
fn first(k: usize, n: usize) -> usize
    ensures { result ≡ first_behind k n }
{
    if n == 0 { 0 } else { k }
}

// A state whose map is laid: its first child and its vector. The number of its children.
fn close(table: &mut [u16], q: usize, k: usize, f: usize, own: u16) -> usize
    requires { Closable table.old q k f own }
    ensures { (result ≡ ones_over table.old q 0 16) × (result ≤ 256) × (table.new ≡ closed table.old q k f own) }
{
    let n = children(&Slot { table, state: q });
    let vector = inherited(q, &Slot { table, state: f }) + own;
    let at = q * 19;
    table[at + 16] = first(k, n) as u16;
    table[at + 18] = vector;
    n
}

// State q, whose turn it is, with k states placed; how many are then.
pub fn settle(words: &Words, table: &mut [u16], s: usize, q: usize, k: usize) -> usize
    requires { let ts = words_of words.now in (q < length (by_level ts)) × (Growing ts s table.old q k) }
    ensures { Growing (words_of words.now) s table.new (q + 1) result }
{
    let slot = Slot { table, state: q };
    let turn = Turn {
        state: q,
        placed: k,
        depth: usize::from(slot.number(0)),
        fail: slot.fail(),
        mask: slot.vector(),
    };
    lay_map(words, table, q, turn.depth, turn.mask);
    let own = own_tags(words, turn.depth, turn.mask);
    let n = close(table, q, k, turn.fail, own);
    sow(words, table, s, turn);
    k + n
}
