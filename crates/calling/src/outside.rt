// Building and reading outside the desk.
ghost use Rattle.std.specs.Prelude.{◌≡◌, List, [], ◌∷◌, ℕ, ◌≤◌, length, take as take·of};
ghost use Rattle.desk.specs.Layout.{lent, sizes, sizes_of};
ghost use Rattle.output.specs.Buffer.{Puts};
ghost use Rattle.script.specs.Calls.{machines_of};
ghost use Rattle.calling.specs.Calls.{answered, held_by, Did, behind_lent, build_on, built_by, front_of, lent_tables, tables_by, sevens, read_text};

use crate::State;
use output::Buffer;
use script::{Layout, ReadCall};
use tables::BuildFault;

// Of the first numbers of two tables.
#[tactic(auto, using(crate::specs::Laws::off))]
fn build_by(
    layout: Layout,
    set: &[u8],
    first: &mut [u16],
    second: &mut [u16],
    a: usize,
    b: usize,
) -> Result<usize, BuildFault>
    requires { (a ≤ length first.old) × (b ≤ length second.old) }
    ensures value { result ≡ built_by layout set.now (sizes_of (front_of (sizes a b) (lent first.old second.old))) }
    ensures second_after { lent first.new second.new ≡ behind_lent (sizes a b) (lent first.old second.old)
        (tables_by layout set.now (front_of (sizes a b) (lent first.old second.old))) }
{
    match layout {
        Layout::Split => tables::build_split(set, &mut first[..a], &mut second[..b]),
        Layout::Whole => tables::build_whole(set, &mut first[..a]),
        Layout::Bitmap => bitmap_tables::build_bitmap(set, &mut first[..a]),
    }
}

impl State {
    #[tactic(auto, using(crate::specs::Laws::off))]
    pub(crate) fn build(&mut self, layout: Layout)
        ensures { Did (build_on (held_by self.old) layout) self.old.out (held_by self.new) self.new.out }
    {
        let built = build_by(
            layout,
            &self.set[..self.held],
            &mut self.first,
            &mut self.second,
            self.first_lent,
            self.second_lent,
        );
        answers::built_line(&mut self.out, built);
    }

    // Over the lent numbers of the tables.
    #[tactic(auto, using(crate::specs::Laws::off))]
    pub(crate) fn read(&mut self, reading: ReadCall, bytes: &[u8])
        requires room { reading.room ≤ 2048 }
        requires piece { reading.piece ≤ length bytes.now }
        ensures { Did (answered (held_by self.old) (read_text (lent_tables (held_by self.old)) reading.layout reading.count reading.room
            (take·of (machines_of reading.layout) reading.place) (take·of reading.piece bytes.now))) self.old.out (held_by self.new) self.new.out }
    {
        read_by(
            reading.layout,
            reading.count,
            reading.place,
            &self.first[..self.first_lent],
            &self.second[..self.second_lent],
            &bytes[..reading.piece],
            &mut self.list,
            reading.room,
            &mut self.out,
        );
    }
}

// The three reads stay three: each calls another function, whose place is 16 numbers, one, or one with its moves; what they share is `fill`
// and the lines.

// A list before a read: each of its numbers is 7.
fn fill(list: &mut [u32])
    ensures { list.new ≡ sevens (length list.old) }
{
    list.fill(7);
}

fn read_split(
    count: u32,
    place: [u16; 16],
    first: &[u16],
    second: &[u16],
    piece: &[u8],
    list: &mut [u32],
    out: &mut Buffer,
)
    ensures { Puts out.old (read_text (lent first.now second.now) Layout.Split count (length list.old) place
        piece.now) out.new }
{
    fill(list);
    let r = reading::read_split(first, second, place, count, piece, list);
    answers::read_lines(out, r.taken, r.ending, r.records, &r.place, list);
}

fn read_whole(
    count: u32,
    place: u16,
    table: &[u16],
    piece: &[u8],
    list: &mut [u32],
    out: &mut Buffer,
)
    ensures { Puts out.old (read_text (lent table.now []) Layout.Whole count (length list.old)
        (place ∷ []) piece.now) out.new }
{
    fill(list);
    let r = reading::read_whole(table, place, count, piece, list);
    answers::read_lines(out, r.taken, r.ending, r.records, &[r.place], list);
}

fn read_bitmap(
    count: u32,
    place: u16,
    table: &[u16],
    piece: &[u8],
    list: &mut [u32],
    out: &mut Buffer,
)
    ensures { Puts out.old (read_text (lent table.now []) Layout.Bitmap count (length list.old)
        (place ∷ []) piece.now) out.new }
{
    fill(list);
    let r = bitmap_reading::read_bitmap(table, place, count, piece, list);
    let at = r.place;
    answers::map_lines(
        out,
        r.taken,
        r.ending,
        r.records,
        at.moves,
        &[at.state],
        list,
    );
}

// With the first ROOM numbers of the list.
fn read_by(
    layout: Layout,
    count: u32,
    place: [u16; 16],
    first: &[u16],
    second: &[u16],
    piece: &[u8],
    list: &mut [u32],
    room: usize,
    out: &mut Buffer,
)
    requires { room ≤ length list.old }
    ensures { Puts out.old (read_text (lent first.now second.now) layout count room
        (take·of (machines_of layout) place) piece.now) out.new }
{
    let list = &mut list[..room];
    match layout {
        Layout::Split => read_split(count, place, first, second, piece, list, out),
        Layout::Whole => read_whole(count, place[0], first, piece, list, out),
        Layout::Bitmap => read_bitmap(count, place[0], first, piece, list, out),
    }
}
