// Reading a piece over any bitmap table (docs/RULES.md, 4).
#![tactic(auto)]

mod rows;
mod tables;
mod walks;

ghost use Rattle.std.specs.Prelude.{length};
ghost use Rattle.bitmap_reading.specs.Outside.{MapTells, read_map_of};

use crate::tables::MapTable;
use crate::walks::on_bitmap;
use bitmap::map_slots;
use reading::Answer;
use reading::refusals::{judge, too_long};

// Where a reading stands: its state, and the failure moves of the bytes taken since it began.
#[derive(Clone, Copy)]
pub struct Standing {
    pub state: u16,
    pub moves: usize,
}

// A read outside the desk, from a state. A refused read makes no move.
pub fn read_bitmap(
    table: &[u16],
    place: u16,
    count: u32,
    piece: &[u8],
    list: &mut [u32],
) -> Answer<Standing>
    ensures { MapTells result place list.old list.new
        (read_map_of table.now place count piece.now (length list.old)) }
{
    let states = map_slots(table.len());
    let start = usize::from(place);
    let sound = start < states;
    let long = too_long(count, piece.len());
    if let Err(why) = judge(sound, long) {
        let stays = Standing {
            state: place,
            moves: 0,
        };
        return Answer::refused(stays, why);
    }
    let table = MapTable {
        numbers: table,
        states,
    };
    let r = on_bitmap(&table, start, count, piece, list);
    Answer {
        taken: r.taken,
        place: r.place,
        records: r.records,
        ending: Ok(r.stop),
    }
}
