// The static library for C and Rust: each call of the gate and of the desk, building and reading outside it, and the size queries.
// A gate or a desk goes in by value and comes back beside its answer; its image is numbers alone, so any bytes of its size are one.
#![tactic(auto)]

ghost use Rattle.std.specs.Prelude.{◌≡◌, [], ◌∷◌, length};
ghost use Rattle.desk.specs.Layout.{by_set, lent, one_bit, sizes};
ghost use Rattle.desk.specs.Rooms.{serial_of};
ghost use Rattle.desk.specs.Calls.{new_desk, open_of, close_of, take_of};
ghost use Rattle.desk.specs.Replace.{replace_of, replaced_run};
ghost use Rattle.desk.specs.Feed.{feed_of};
ghost use Rattle.desk.specs.TakeMany.{many_of, take_many_of, list_taken};
ghost use Rattle.desk.specs.State.{state_of};
ghost use Rattle.gate.specs.Gate.{new_gate, change_of, begin_of, piece_of, decide_of};
ghost use Rattle.tables.specs.Building.{built_of, tables_of, needed_of};
ghost use Rattle.bitmap_tables.specs.Building.{map_built_of, map_table_of};
ghost use Rattle.matching.specs.Parts.{split_layout, whole_layout};
ghost use Rattle.reading.specs.Outside.{read_of};
ghost use Rattle.bitmap_reading.specs.Outside.{read_map_of};
ghost use Rattle.exports.specs.Replies.{ReplaceTold, OpenTold, FeedTold, CloseTold, TakeTold, ManyTold, SplitTold, WholeTold, MapTold};
ghost use Rattle.exports.specs.Replies.{ChangeTold, BeginTold, PieceTold, DecideTold};
ghost use Rattle.numbers.specs.Answers.{state_answer, built_answer, needed_answer};

use desk::{Desk, Serial};
use gate::Gate;
use numbers::{Answer, Said};

// A desk after a call, and the call's answer.
#[repr(C)]
#[derive(Drop)]
pub struct Reply {
    pub desk: Desk,
    pub answer: Answer,
}

// A gate after a call, and the call's answer.
#[repr(C)]
#[derive(Drop)]
pub struct GateReply {
    pub gate: Gate,
    pub answer: Answer,
}

// The desk after a call, and what the call answers as numbers.
fn desk_told<A, F: FnOnce(A) -> Said>(after: desk::After<A>, said: F) -> Reply
    requires { F.IsAlwaysCallable said }
    ensures { (result.desk ≡ after.desk) × ((s : Said) × F.post said after.answer s × (result.answer ≡ s.answer)) }
{
    Reply {
        desk: after.desk,
        answer: said(after.answer).answer,
    }
}

fn gate_told<A, F: FnOnce(A) -> Said>(after: gate::After<A>, said: F) -> GateReply
    requires { F.IsAlwaysCallable said }
    ensures { (result.gate ≡ after.gate) × ((s : Said) × F.post said after.answer s × (result.answer ≡ s.answer)) }
{
    GateReply {
        gate: after.gate,
        answer: said(after.answer).answer,
    }
}

// How many records were taken at once.
#[repr(C)]
#[derive(Drop)]
pub struct TakenMany {
    pub desk: Desk,
    pub count: u64,
}

// A read outside the desk: its answer, and the place after it. Three types, since C has a name for each (include/sleet.h).
#[repr(C)]
#[derive(Drop)]
pub struct SplitReply {
    pub answer: Answer,
    pub place: [u16; 16],
}

#[repr(C)]
#[derive(Drop)]
pub struct WholeReply {
    pub answer: Answer,
    pub place: u16,
}

#[repr(C)]
#[derive(Drop)]
pub struct MapReply {
    pub answer: Answer,
    pub place: u16,
}

// 10,000 for the major number, 100 for the minor one, and the patch: the header and the crate say which one they are written for.
#[unsafe(no_mangle)]
pub extern "C" fn sleet_version() -> u64
    ensures { result ≡ 20000 }
{
    20000
}

#[unsafe(no_mangle)]
pub extern "C" fn sleet_desk_new() -> Desk
    ensures { result ≡ new_desk one_bit }
{
    Desk::new()
}

#[unsafe(no_mangle)]
pub extern "C" fn sleet_desk_replace(
    desk: Desk,
    set: &[u8],
    first: &mut [u16],
    second: &mut [u16],
) -> Reply
    ensures replace_told { ReplaceTold result (replace_of desk (by_set set.now) (sizes (length first.old) (length second.old))) }
    ensures second_after { lent first.new second.new
        ≡ replaced_run desk (by_set set.now) (lent first.old second.old) }
{
    desk_told(desk.replace(set, first, second), numbers::of_replace)
}

#[unsafe(no_mangle)]
pub extern "C" fn sleet_desk_open(desk: Desk) -> Reply
    ensures { OpenTold result (open_of desk) }
{
    desk_told(desk.open(), numbers::of_open)
}

#[unsafe(no_mangle)]
pub extern "C" fn sleet_desk_feed(
    desk: Desk,
    serial: u32,
    first: &[u16],
    second: &[u16],
    piece: &[u8],
) -> Reply
    ensures { FeedTold result (feed_of desk (serial_of serial) (lent first.now second.now) piece.now) }
{
    desk_told(
        desk.feed(Serial(serial), first, second, piece),
        numbers::of_feed,
    )
}

#[unsafe(no_mangle)]
pub extern "C" fn sleet_desk_close(desk: Desk, serial: u32) -> Reply
    ensures { CloseTold result (close_of desk (serial_of serial)) }
{
    desk_told(desk.close(Serial(serial)), numbers::of_close)
}

#[unsafe(no_mangle)]
pub extern "C" fn sleet_desk_take(desk: Desk) -> Reply
    ensures { TakeTold result (take_of desk) }
{
    desk_told(desk.take(), numbers::of_take)
}

#[unsafe(no_mangle)]
pub extern "C" fn sleet_desk_take_many(desk: Desk, list: &mut [u32]) -> TakenMany
    ensures many_told { ManyTold result (take_many_of desk (length list.old)) }
    ensures list_after { list.new ≡ list_taken desk list.old (many_of desk (length list.old)) }
{
    let r = desk.take_many(list);
    let after = r.desk;
    TakenMany {
        desk: after,
        count: r.answer as u64,
    }
}

#[unsafe(no_mangle)]
pub extern "C" fn sleet_desk_state(desk: Desk, serial: u32) -> Answer
    ensures { result ≡ state_answer (state_of desk (serial_of serial)) }
{
    numbers::of_state(desk.state(Serial(serial))).answer
}

#[unsafe(no_mangle)]
pub extern "C" fn sleet_gate_new() -> Gate
    ensures { result ≡ new_gate one_bit }
{
    Gate::new()
}

#[unsafe(no_mangle)]
pub extern "C" fn sleet_gate_replace(
    gate: Gate,
    set: &[u8],
    first: &mut [u16],
    second: &mut [u16],
) -> GateReply
    ensures change_told { ChangeTold result (change_of gate (by_set set.now) (sizes (length first.old) (length second.old))) }
    ensures second_after { lent first.new second.new
        ≡ replaced_run gate.desk (by_set set.now) (lent first.old second.old) }
{
    gate_told(gate.replace(set, first, second), numbers::of_replace)
}

#[unsafe(no_mangle)]
pub extern "C" fn sleet_gate_begin(gate: Gate) -> GateReply
    ensures { BeginTold result (begin_of gate) }
{
    gate_told(gate.begin(), numbers::of_open)
}

#[unsafe(no_mangle)]
pub extern "C" fn sleet_gate_piece(
    gate: Gate,
    serial: u32,
    first: &[u16],
    second: &[u16],
    piece: &[u8],
) -> GateReply
    ensures { PieceTold result (piece_of gate (serial_of serial) (lent first.now second.now) piece.now) }
{
    gate_told(
        gate.piece(Serial(serial), first, second, piece),
        gate_numbers::of_piece,
    )
}

#[unsafe(no_mangle)]
pub extern "C" fn sleet_gate_decide(gate: Gate, serial: u32) -> GateReply
    ensures { DecideTold result (decide_of gate (serial_of serial)) }
{
    gate_told(gate.decide(Serial(serial)), gate_numbers::of_verdict)
}

// The slots of the split layout's first and second table.
#[unsafe(no_mangle)]
pub extern "C" fn sleet_slots_needed(set: &[u8]) -> Answer
    ensures { result ≡ needed_answer (needed_of split_layout set.now) }
{
    numbers::of_needed(tables::slots_needed(set)).answer
}

// The slots of a whole-byte table, and of a bitmap table, which are as many.
#[unsafe(no_mangle)]
pub extern "C" fn sleet_whole_slots_needed(set: &[u8]) -> Answer
    ensures { result ≡ needed_answer (needed_of whole_layout set.now) }
{
    numbers::of_needed(tables::whole_slots_needed(set)).answer
}

#[unsafe(no_mangle)]
pub extern "C" fn sleet_build_split(set: &[u8], first: &mut [u16], second: &mut [u16]) -> Answer
    ensures value { result ≡ built_answer (built_of split_layout set.now (length first.old ∷ length second.old ∷ [])) }
    ensures second_after { first.new ∷ second.new ∷ []
        ≡ tables_of split_layout set.now (first.old ∷ second.old ∷ []) }
{
    numbers::of_built(tables::build_split(set, first, second)).answer
}

#[unsafe(no_mangle)]
pub extern "C" fn sleet_build_whole(set: &[u8], table: &mut [u16]) -> Answer
    ensures value { result ≡ built_answer (built_of whole_layout set.now (length table.old ∷ [])) }
    ensures table_after { table.new ∷ [] ≡ tables_of whole_layout set.now (table.old ∷ []) }
{
    numbers::of_built(tables::build_whole(set, table)).answer
}

#[unsafe(no_mangle)]
pub extern "C" fn sleet_build_bitmap(set: &[u8], table: &mut [u16]) -> Answer
    ensures value { result ≡ built_answer (map_built_of set.now (length table.old)) }
    ensures table_after { table.new ≡ map_table_of set.now table.old }
{
    numbers::of_built(bitmap_tables::build_bitmap(set, table)).answer
}

#[unsafe(no_mangle)]
pub extern "C" fn sleet_read_split(
    first: &[u16],
    second: &[u16],
    place: &[u16; 16],
    count: u32,
    piece: &[u8],
    list: &mut [u32],
) -> SplitReply
    ensures { SplitTold result place.now list.old list.new
        (read_of split_layout (first.now ∷ second.now ∷ []) place.now count piece.now (length list.old)) }
{
    let start = *place;
    let r = reading::read_split(first, second, start, count, piece, list);
    let after = r.place;
    let answer = numbers::of_read(r.taken, r.records, r.ending).answer;
    SplitReply {
        answer,
        place: after,
    }
}

#[unsafe(no_mangle)]
pub extern "C" fn sleet_read_whole(
    table: &[u16],
    place: u16,
    count: u32,
    piece: &[u8],
    list: &mut [u32],
) -> WholeReply
    ensures { WholeTold result place list.old list.new
        (read_of whole_layout (table.now ∷ []) (place ∷ []) count piece.now (length list.old)) }
{
    let r = reading::read_whole(table, place, count, piece, list);
    let answer = numbers::of_read(r.taken, r.records, r.ending).answer;
    WholeReply {
        answer,
        place: r.place,
    }
}

#[unsafe(no_mangle)]
pub extern "C" fn sleet_read_bitmap(
    table: &[u16],
    place: u16,
    count: u32,
    piece: &[u8],
    list: &mut [u32],
) -> MapReply
    ensures { MapTold result place list.old list.new
        (read_map_of table.now place count piece.now (length list.old)) }
{
    let r = bitmap_reading::read_bitmap(table, place, count, piece, list);
    let answer = numbers::of_map_read(r.taken, r.records, r.place.moves, r.ending).answer;
    MapReply {
        answer,
        place: r.place.state,
    }
}
