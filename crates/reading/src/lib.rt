// Reading a piece over any tables (docs/RULES.md, 4).
#![tactic(auto)]

mod noted;
pub mod records;
pub mod refusals;
mod split;
mod walks;
pub mod went;

ghost use Rattle.std.specs.Prelude.{◌≡◌, Err, [], ◌∷◌, length};
ghost use Rattle.matching.specs.Parts.{split_layout, whole_layout};
ghost use Rattle.reading.specs.Outside.{SplitTells, WholeTells, read_of};

use crate::refusals::{judge, too_long};
use crate::split::on_split;
use crate::walks::on_whole;
use blocks::start::{all_states, slots_of};
use matching::{Stop, slots};
use passing::places::{narrowed, widened};
use passing::whole::WholeTable;

// Why a read outside the desk is refused.
#[derive(Clone, Copy, PartialEq, Eq, Debug)]
pub enum ReadRefusal {
    Place,
    Long,
}

// How a read ended.
pub type Ending = Result<Stop, ReadRefusal>;

// What a read gives: the number of bytes taken, the new place, the number of records written, and why it stopped or is refused.
// A refused read takes nothing, writes nothing and stays where it was.
#[derive(Clone, Copy)]
pub struct Answer<P> {
    pub taken: usize,
    pub place: P,
    pub records: usize,
    pub ending: Ending,
}

impl<P> Answer<P> {
    pub fn refused(place: P, why: ReadRefusal) -> Answer<P>
        ensures { result ≡ record { taken = 0; place = place; records = 0; ending = Err why } }
    {
        Answer {
            taken: 0,
            place,
            records: 0,
            ending: Err(why),
        }
    }
}

// Over the two tables of the split layout: eight machines of one bit each.
pub fn read_split(
    first: &[u16],
    second: &[u16],
    place: [u16; 16],
    count: u32,
    piece: &[u8],
    list: &mut [u32],
) -> Answer<[u16; 16]>
    ensures { SplitTells result place list.old list.new
        (read_of split_layout (first.now ∷ second.now ∷ []) place count piece.now (length list.old)) }
{
    let s = slots_of(first.len(), second.len());
    let start = widened(place);
    let sound = all_states(s, start);
    let long = too_long(count, piece.len());
    if let Err(why) = judge(sound, long) {
        return Answer::refused(place, why);
    }
    let r = on_split(first, second, s, start, count, piece, list);
    Answer {
        taken: r.taken,
        place: narrowed(r.place),
        records: r.records,
        ending: Ok(r.stop),
    }
}

// Over a whole-byte table, whose place is one number.
pub fn read_whole(
    table: &[u16],
    place: u16,
    count: u32,
    piece: &[u8],
    list: &mut [u32],
) -> Answer<u16>
    ensures { WholeTells result place list.old list.new
        (read_of whole_layout (table.now ∷ []) (place ∷ []) count piece.now (length list.old)) }
{
    let s = slots(table.len(), 8, 1);
    let start = usize::from(place);
    let sound = start < s;
    let long = too_long(count, piece.len());
    if let Err(why) = judge(sound, long) {
        return Answer::refused(place, why);
    }
    let table = WholeTable {
        numbers: table,
        states: s,
    };
    let r = on_whole(&table, start, count, piece, list);
    Answer {
        taken: r.taken,
        place: r.place as u16,
        records: r.records,
        ending: Ok(r.stop),
    }
}
