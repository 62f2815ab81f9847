// The bench program (docs/RULES.md, 9): feeds input.bin to one ticket under the set of set.bin, and writes every record.
#![tactic(auto)]

ghost use Rattle.std.specs.Prelude.{◌≡◌, ◌≤◌, length, take};
ghost use Rattle.desk.specs.Layout.{by_set, lent, one_bit, sizes};
ghost use Rattle.desk.specs.Calls.{new_desk};
ghost use Rattle.desk.specs.Replace.{replace_of, replaced_run};

use desk::{After, Desk, ReplaceRefusal, Replaced, Serial};
use output::Buffer;
use std::fs::File;
use std::io::Read;

// 479 slots of 24 numbers: what the largest set needs in each table.
fn new_table() -> [u16; 11496]
    ensures { 11496 ≡ length result }
{
    [0u16; 11496]
}

// Reads until the bytes are full, the file ends or a read fails; how many of them were read. A while, since a step is what a read gave; and by
// hand, since std's `read_exact` takes a short file for an error.
fn read_full(file: &mut File, bytes: &mut [u8]) -> usize
    ensures { result ≤ length bytes.new }
{
    let mut n: usize = 0;
    while n < bytes.len() {
        match file.read(&mut bytes[n..]) {
            Ok(0) => return n,
            Ok(k) => n += k,
            Err(_) => return n,
        }
    }
    n
}

// The first bytes of the file of the set; none where it is missing. A longer set is judged by its first 580 bytes (benchlines, FirstBytes).
fn read_set(rt: &HostRuntime, bytes: &mut [u8; 4096]) -> usize
    ensures { result ≤ 4096 }
{
    let Ok(mut file) = File::open(rt, "set.bin") else {
        return 0;
    };
    read_full(&mut file, bytes)
}

// A new desk under the set of the first n bytes.
fn replaced(
    set: &[u8; 4096],
    n: usize,
    first: &mut [u16; 11496],
    second: &mut [u16; 11496],
) -> After<Result<Replaced, ReplaceRefusal>>
    ensures value { result ≡ replace_of (new_desk one_bit) (by_set (take n set.now))
        (sizes (length first.old) (length second.old)) }
    ensures second_after { lent first.new second.new
        ≡ replaced_run (new_desk one_bit) (by_set (take n set.now)) (lent first.old second.old) }
{
    let bytes: &[u8] = set;
    if n < bytes.len() {
        return Desk::new().replace(&bytes[0..n], first, second);
    }
    Desk::new().replace(bytes, first, second)
}

// Reads a piece of at most 4,096 bytes and feeds it; whether there may be more.
fn next_piece(
    file: &mut File,
    desk: &mut Desk,
    serial: Serial,
    first: &[u16; 11496],
    second: &[u16; 11496],
    out: &mut Buffer,
) -> bool {
    let mut piece = [0u8; 4096];
    let n = read_full(file, &mut piece);
    let fed = serving::feed_piece(*desk, serial, first, second, &piece[..n], out);
    *desk = fed.desk;
    0 < n && fed.taken == n
}

// The bytes taken by the one ticket, whose room is the first.
fn taken_in_all(desk: Desk) -> u32 {
    let tickets = desk.tickets;
    let ticket = tickets[0];
    ticket.taken
}

// Feeds piece after piece to the end of the input, or to a piece that is not taken whole. Nothing says that an input ends: a count
// of turns that no run uses up does.
fn feed_all(
    file: &mut File,
    desk: Desk,
    serial: Serial,
    first: &[u16; 11496],
    second: &[u16; 11496],
    out: &mut Buffer,
) {
    let mut now = desk;
    for _ in 0..u64::MAX {
        if !next_piece(file, &mut now, serial, first, second, out) {
            return serving::lines::put_taken(out, taken_in_all(now));
        }
    }
}

// Opens the ticket and feeds it the whole input; nothing where that is missing.
fn serve(
    rt: &HostRuntime,
    desk: Desk,
    first: &[u16; 11496],
    second: &[u16; 11496],
    out: &mut Buffer,
) {
    let opening = desk.open();
    let opened = opening.desk;
    let answer = opening.answer;
    let serial = answer.unwrap_or(Serial(0));
    let Ok(mut file) = File::open(rt, "input.bin") else {
        return serving::lines::put_taken(out, taken_in_all(opened));
    };
    feed_all(&mut file, opened, serial, first, second, out);
}

fn main(rt: HostRuntime) {
    let mut set = [0u8; 4096];
    let mut first = new_table();
    let mut second = new_table();
    let mut out = Buffer {
        bytes: [0u8; 65536],
        used: 0,
    };
    let n = read_set(&rt, &mut set);
    let replacing = replaced(&set, n, &mut first, &mut second);
    let desk = replacing.desk;
    let answer = replacing.answer;
    serving::lines::put_answer(&mut out, answer);
    if answer.is_ok() {
        serve(&rt, desk, &first, &second, &mut out);
    }
    out.flush();
}
