// Building a bitmap table from the bytes of a set (docs/RULES.md, 2 and 3).
#![tactic(auto)]

ghost use Rattle.std.specs.Prelude.{◌≡◌, length};
ghost use Rattle.matching.specs.Words.{Lawful};
ghost use Rattle.tagset.specs.Cutting.{words_of};
ghost use Rattle.machines.specs.Rows.{Fit};
ghost use Rattle.bitmap_tables.specs.Building.{map_built_of, map_built_tags, map_table_of, map_table_tags};

use bitmap::map_slots;
use bitmap_growing::make_bitmap;
use kinds::Takes;
use machines::count_states;
use tables::BuildFault;
use tagset::{Words, read_set};

// The machine's name in a refusal.
const BITMAP: usize = 253;

// The tags' table, where there is a slot for each state.
fn build_tags(words: &Words, table: &mut [u16]) -> Result<usize, BuildFault>
    requires { let ts = words_of words.now in (Fit ts) × (Lawful ts) }
    ensures answer { result ≡ map_built_tags (words_of words.now) (length table.old) }
    ensures left { table.new ≡ map_table_tags (words_of words.now) table.old }
{
    let s = map_slots(table.len());
    let n = count_states(words);
    if s < n {
        return Err(BuildFault::Table(BITMAP, n));
    }
    let end = s * 19;
    make_bitmap(words, &mut table[..end], s, n);
    Ok(words.count())
}

// The bitmap table of a set of exact tags: its faults, then its slots.
pub fn build_bitmap(set: &[u8], table: &mut [u16]) -> Result<usize, BuildFault>
    ensures answer { result ≡ map_built_of set.now (length table.old) }
    ensures left { table.new ≡ map_table_of set.now table.old }
{
    let places = read_set(set, Takes::ExactAlone)?;
    let count = places.count;
    let from = places.from;
    let to = places.to;
    let words = Words {
        letters: set,
        from: &from[..count],
        to: &to[..count],
    };
    build_tags(&words, table)
}
