// A block for both tables.
ghost use Rattle.std.specs.Prelude.{◌≡◌, [], ◌∷◌, ◌≤◌, length};
ghost use Rattle.matching.specs.Parts.{split_layout};
ghost use Rattle.blocks.specs.Parts.{Lettered, SplitFits, Walks, awake_of, clean, runs_of};

use crate::places::{joined, part_of};
use crate::tables::SplitTables;
use crate::walks::Walked;
use kinds::folding::fold_all;

// The most bytes of a block.
pub const MOST: usize = 256;

// The parts of the split layout: `split_layout` in matching's specs/Parts.antt.
pub const PARTS: usize = 2;

// The second table over the whole block, then the first up to the byte to which the second came.
fn walk_both(
    tables: &SplitTables,
    start: [usize; 16],
    block: &[u8],
    near: &[u8],
    hits: &mut [u16; 256],
) -> Walked<16>
    requires split_fits { (SplitFits tables.now start)
        × (Lettered split_layout (awake_of tables.now) (block.now ∷ near.now ∷ []) block.now) }
    requires block_len_bound { (length block.now ≤ 256) × (hits.old ≡ clean) }
    ensures { Walks split_layout (runs_of tables.now) start block.now hits.new result }
{
    let second = tables
        .folded
        .walk(part_of(start, PARTS - 1), near, block.len(), hits);
    let first = tables.exact.walk(part_of(start, 0), block, second.at, hits);
    Walked {
        at: first.at,
        place: joined(first.place, second.place),
        loud: second.loud | first.loud,
    }
}

// The second table reads a folded copy, which is made where it is awake.
pub fn walk_block(
    tables: &SplitTables,
    start: [usize; 16],
    block: &[u8],
    hits: &mut [u16; 256],
) -> Walked<16>
    requires split_fits { SplitFits tables.now start }
    requires block_len_bound { (length block.now ≤ 256) × (hits.old ≡ clean) }
    ensures { Walks split_layout (runs_of tables.now) start block.now hits.new result }
{
    if tables.folded.starts.is_none() {
        return walk_both(tables, start, block, block, hits);
    }
    let mut near: [u8; 256] = [0; 256];
    fold_all(block, &mut near);
    let folded = &near[..block.len()];
    walk_both(tables, start, block, folded, hits)
}
