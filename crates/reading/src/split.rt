// The loop over a piece, for the split layout: a block after another. Only where a byte's records find no room, or a next number is no
// state, is a block walked again, up to that byte.
ghost use Rattle.std.specs.Prelude.{◌≡◌, [], ◌∷◌, ◌+◌, ◌*◌, ◌-◌, ◌/◌, ◌<◌, ◌≤◌, ◌^◌, length};
ghost use Rattle.matching.specs.Parts.{read_in, split_layout};
ghost use Rattle.blocks.specs.Parts.{SplitFits, Stands, clean, runs_of};
ghost use Rattle.reading.specs.Walks.{BlockRead, Walked};

use crate::noted::write_noted;
use crate::went::Went;
use blocks::block::{MOST, walk_block};
use blocks::start::tables_at;
use blocks::tables::SplitTables;
use matching::Stop;

// Blocks are sized so that a list which fills costs no long walk that is thrown away. What is answered does not hang on their sizes.
const FEW: usize = 4;

// The bytes of a piece's first block, for a list of so many numbers.
fn first_size(list: usize) -> usize {
    (list / 4).min(MOST) + FEW
}

// Those of the next, by how many records there are before and behind a block of so many bytes. Where it had none, twice as many;
// else as many as have room at that rate, less a quarter.
fn next_size(size: usize, before: usize, records: usize, list: usize) -> usize {
    if records <= before {
        return size.min(MOST) * 2;
    }
    let found = records - before;
    let all = list / 2;
    if all <= records {
        return FEW;
    }
    let room = (all - records).min(MOST);
    (room * size.min(MOST) / found).min(MOST) * 3 / 4 + FEW
}

// Where a block of about so many bytes ends that begins at a byte: it has at least one, where there is one, and no more than a block has.
fn block_end(at: usize, len: usize, size: usize) -> usize
    requires { at ≤ len }
    ensures { (at ≤ result) × ((result ≤ len) × ((result - at ≤ 256) × (at < len → at < result))) }
{
    at + (len - at).min(size.min(MOST - 1) + 1)
}

// One block, its records behind the first so many of the list. While all is taken, nothing stays noted.
fn read_block(
    tables: &SplitTables,
    start: [usize; 16],
    count: u32,
    block: &[u8],
    list: &mut [u32],
    from: usize,
    hits: &mut [u16; 256],
) -> Went<[usize; 16]>
    requires split_fits { SplitFits tables.now start }
    requires block_len_bound { (length block.now ≤ 256) × ((count + length block.now < 2 ^ 32) × ((2 * from ≤ length list.old) × (hits.old ≡ clean))) }
    ensures { BlockRead result from list.old list.new hits.new
        (read_in split_layout (runs_of tables.now) start count (length list.old / 2 - from) block.now) }
{
    let all = walk_block(tables, start, block, hits);
    let end = all.at;
    let wrote = write_noted(all.loud, hits, end, count, list, from);
    let at = wrote.at;
    if block.len() <= at {
        return Went::stopped(at, all.place, wrote.records, Stop::All);
    }
    let taken = &block[0..at];
    let again = walk_block(tables, start, taken, hits);
    let place = again.place;
    if at < end {
        return Went::stopped(at, place, wrote.records, Stop::Full);
    }
    Went::stopped(at, place, wrote.records, Stop::Damaged)
}

// A block after another.
fn on_blocks(
    tables: &SplitTables,
    start: [usize; 16],
    count: u32,
    piece: &[u8],
    list: &mut [u32],
    hits: &mut [u16; 256],
) -> Went<[usize; 16]>
    requires split_fits { SplitFits tables.now start }
    requires piece_bound { (count + length piece.now < 2 ^ 32) × (hits.old ≡ clean) }
    ensures { Walked result list.old list.new
        (read_in split_layout (runs_of tables.now) start count (length list.old / 2) piece.now) }
{
    let mut at = start;
    let mut size = first_size(list.len());
    let mut w: usize = 0;
    let mut i: usize = 0;
    // A while, since a turn's step is what the block took: a for's step is 1.
    while i < piece.len() {
        let to = block_end(i, piece.len(), size);
        let block = &piece[i..to];
        let seen = count + (i as u32);
        let r = read_block(tables, at, seen, block, list, w, hits);
        at = r.place;
        size = next_size(size, w, r.records, list.len());
        w = r.records;
        i += r.taken;
        let Stop::All = r.stop else {
            return Went::stopped(i, at, w, r.stop);
        };
    }
    Went::stopped(i, at, w, Stop::All)
}

// Starts are made for the parts that are awake.
pub fn on_split(
    first: &[u16],
    second: &[u16],
    slots: [usize; 2],
    start: [usize; 16],
    count: u32,
    piece: &[u8],
    list: &mut [u32],
) -> Went<[usize; 16]>
    requires { (Stands split_layout (first.now ∷ second.now ∷ []) slots start) × (count + length piece.now < 2 ^ 32) }
    ensures { Walked result list.old list.new
        (read_in split_layout (first.now ∷ second.now ∷ []) start count (length list.old / 2) piece.now) }
{
    let mut hits: [u16; 256] = [0; 256];
    let mut starts: [usize; 256] = [0; 256];
    let tables = tables_at(first, second, slots, start, &mut starts);
    on_blocks(&tables, start, count, piece, list, &mut hits)
}
