// Building a bitmap table in place, state by state in the order of their numbers (docs/RULES.md, 2 and 3). A state that is placed but not yet
// settled waits in its own slot: its depth, where it fails to, and the mask of the tags that go through it.
#![tactic(auto)]

ghost use Rattle.std.specs.Prelude.{◌≡◌, ◌*◌, ◌<◌, ◌≤◌, length};
ghost use Rattle.matching.specs.Words.{Lawful};
ghost use Rattle.tagset.specs.Cutting.{words_of};
ghost use Rattle.bitmap.specs.Levels.{by_level};
ghost use Rattle.bitmap.specs.Slots.{built};
ghost use Rattle.bitmap_growing.specs.Growing.{Begun, Growing};

use bitmap_maps::masks::all_tags;
use settling::settle;
use tagset::Words;

mod settling;
mod sowing;

// The start state, placed alone: all tags go through it.
fn begin(tags: usize, table: &mut [u16])
    requires { (18 < length table.old) × (tags ≤ 16) }
    ensures { Begun tags table.new (length table.old) }
{
    table.fill(0);
    table[18] = all_tags(tags);
}

// The n states, each in its turn.
fn grow(words: &Words, table: &mut [u16], s: usize, n: usize)
    requires { let ts = words_of words.now in (n ≡ length (by_level ts)) × (Growing ts s table.old 0 1) }
    ensures { table.new ≡ built s (words_of words.now) }
{
    let mut k = 1;
    for q in 0..n {
        k = settle(words, table, s, q, k);
    }
}

// The table of a set with n states, in just s slots, whatever stood there.
pub fn make_bitmap(words: &Words, table: &mut [u16], s: usize, n: usize)
    requires { let ts = words_of words.now in (Lawful ts) × (n ≡ length (by_level ts)) × (n ≤ s) × (s * 19 ≡ length table.old) }
    ensures { table.new ≡ built s (words_of words.now) }
{
    begin(words.count(), table);
    grow(words, table, s, n);
}
