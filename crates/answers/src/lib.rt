// The answers of a replay script as text, put into the buffer of standard output.
//
// A line is made of its answer's number and values, those that C and Rust get (`answer_line` of specs/Answers.antt, which docs/PROMISES.md
// names): so each function asks that number whether the call was refused, and `put_stop` takes a stop by its number. The text is put by
// words and numbers and not by `write!`: of what `write!` writes std promises something on Ok alone, and that it is Ok nowhere, while these
// functions promise their lines on every input. `read_lines` and `map_lines` stay two, since their lines are told by different numbers and
// values; what they share is `put_read`, `put_place` and `refused`.
#![tactic(auto, using(output::specs::Laws::Waiting::put_append), unfolding(output::specs::Buffer::put_bytes))]

mod show;
mod texts;

ghost use Rattle.std.specs.Prelude.{◌∷◌, [], ◌++◌};
ghost use Rattle.output.specs.Buffer.{Puts};
ghost use Rattle.answers.specs.Answers.{listed, ended, stop_word, fed_part, held_part, state_part, record_line};
ghost use Rattle.answers.specs.Answers.{replace_line, open_line, feed_line, close_line, state_line, take_line, built_line, numbers_line};
ghost use Rattle.answers.specs.Answers.{records_part, place_part, stopped_lines, moved_lines, read_lines, map_lines};

use desk::{
    Advance, Edition, FeedRefusal, NoTicket, OpenRefusal, Record, ReplaceRefusal, Replaced, Serial,
    StateAnswer,
};
use numbers::Answer;
use output::Buffer;
use reading::Ending;
pub use show::shown;
use tables::BuildFault;
pub use texts::{not_a_call, word_line};
use texts::{put_blank_number, put_numbered, put_numbers, refused};

pub fn replaced(out: &mut Buffer, answer: Result<Replaced, ReplaceRefusal>)
    ensures { Puts out.old (replace_line answer) out.new }
{
    let said = numbers::of_replace(answer);
    let given = said.answer;
    if given.refusal > 0 {
        return refused(out, said);
    }
    put_numbered(out, b"edition ", given.a);
    put_numbered(out, b" tags ", given.b);
    out.put_line_end();
}

pub fn opened(out: &mut Buffer, answer: Result<Serial, OpenRefusal>)
    ensures { Puts out.old (open_line answer) out.new }
{
    let said = numbers::of_open(answer);
    let given = said.answer;
    if given.refusal > 0 {
        return refused(out, said);
    }
    word_line(out, b"serial ", given.a);
}

#[tactic(auto, using(crate::specs::Laws::Said::stop_damaged), unfolding(crate::specs::Answers::stop_word))]
fn put_stop(out: &mut Buffer, stop: u64)
    ensures { Puts out.old (stop_word stop) out.new }
{
    if stop == 0 {
        return out.put_words(b" stop ALL");
    }
    if stop == 1 {
        return out.put_words(b" stop FULL");
    }
    out.put_words(b" stop DAMAGED");
}

fn put_fed(out: &mut Buffer, given: Answer)
    ensures { Puts out.old (fed_part given) out.new }
{
    put_numbered(out, b"taken ", given.a);
    put_stop(out, given.b);
}

pub fn fed(out: &mut Buffer, answer: Result<Advance, FeedRefusal>)
    ensures { Puts out.old (feed_line answer) out.new }
{
    let said = numbers::of_feed(answer);
    let given = said.answer;
    if given.refusal > 0 {
        return refused(out, said);
    }
    put_fed(out, given);
    out.put_line_end();
}

pub fn closed(out: &mut Buffer, serial: u32, answer: Result<(), NoTicket>)
    ensures { Puts out.old (close_line serial answer) out.new }
{
    let said = numbers::of_close(answer);
    if said.answer.refusal > 0 {
        return refused(out, said);
    }
    word_line(out, b"closed ", serial as u64);
}

fn put_held(out: &mut Buffer, words: &[u8], edition: Edition, count: u32)
    ensures { Puts out.old (held_part words.now edition count) out.new }
{
    put_numbered(out, words, u64::from(edition.0));
    put_blank_number(out, u64::from(count));
    out.put_line_end();
}

fn put_state(out: &mut Buffer, answer: StateAnswer)
    ensures { Puts out.old (state_part answer) out.new }
{
    match answer {
        StateAnswer::Never => out.put_words(b" never\n"),
        StateAnswer::Closed => out.put_words(b" closed\n"),
        StateAnswer::Stale(edition, count) => put_held(out, b" stale ", edition, count),
        StateAnswer::Open(edition, count) => put_held(out, b" open ", edition, count),
    }
}

pub fn told(out: &mut Buffer, serial: u32, answer: StateAnswer)
    ensures { Puts out.old (state_line serial answer) out.new }
{
    put_numbered(out, b"state ", u64::from(serial));
    put_state(out, answer);
}

fn record_line(out: &mut Buffer, given: Answer)
    ensures { Puts out.old (record_line given) out.new }
{
    put_numbered(out, b"record ", given.a);
    put_blank_number(out, given.b);
    put_blank_number(out, given.c);
    put_blank_number(out, given.d);
    out.put_line_end();
}

pub fn taken(out: &mut Buffer, answer: Option<Record>)
    ensures { Puts out.old (take_line answer) out.new }
{
    let said = numbers::of_take(answer);
    let given = said.answer;
    if given.refusal > 0 {
        return refused(out, said);
    }
    record_line(out, given);
}

pub fn built_line(out: &mut Buffer, answer: Result<usize, BuildFault>)
    ensures { Puts out.old (built_line answer) out.new }
{
    let said = numbers::of_built(answer);
    let given = said.answer;
    if given.refusal > 0 {
        return refused(out, said);
    }
    word_line(out, b"tags ", given.a);
}

pub fn numbers_line(out: &mut Buffer, numbers: &[u16])
    ensures { Puts out.old (numbers_line numbers.now) out.new }
{
    out.put_words(b"numbers");
    put_numbers(out, numbers);
    out.put_line_end();
}

fn put_list(out: &mut Buffer, list: &[u32])
    ensures { Puts out.old (ended ((108 ∷ 105 ∷ 115 ∷ 116 ∷ []) ++ listed [] list.now)) out.new }
{
    out.put_words(b"list");
    texts::put_wide_numbers(out, list);
    out.put_line_end();
}

fn put_read(out: &mut Buffer, given: Answer)
    ensures { Puts out.old (records_part given) out.new }
{
    put_fed(out, given);
    put_numbered(out, b" records ", given.c);
}

fn put_place(out: &mut Buffer, place: &[u16], list: &[u32])
    ensures { Puts out.old (place_part place.now list.now) out.new }
{
    out.put_words(b" place");
    put_numbers(out, place);
    out.put_line_end();
    put_list(out, list);
}

fn stopped(out: &mut Buffer, given: Answer, place: &[u16], list: &[u32])
    ensures { Puts out.old (stopped_lines place.now list.now given) out.new }
{
    put_read(out, given);
    put_place(out, place, list);
}

pub fn read_lines(
    out: &mut Buffer,
    taken: usize,
    ending: Ending,
    records: usize,
    place: &[u16],
    list: &[u32],
)
    ensures { Puts out.old (read_lines taken ending records place.now list.now) out.new }
{
    let said = numbers::of_read(taken, records, ending);
    let given = said.answer;
    if given.refusal > 0 {
        return refused(out, said);
    }
    stopped(out, given, place, list);
}

fn moved(out: &mut Buffer, given: Answer, place: &[u16], list: &[u32])
    ensures { Puts out.old (moved_lines place.now list.now given) out.new }
{
    put_read(out, given);
    put_numbered(out, b" moves ", given.d);
    put_place(out, place, list);
}

// The same over a bitmap table, with the failure moves of the bytes taken.
pub fn map_lines(
    out: &mut Buffer,
    taken: usize,
    ending: Ending,
    records: usize,
    moves: usize,
    place: &[u16],
    list: &[u32],
)
    ensures { Puts out.old (map_lines taken ending records moves place.now list.now) out.new }
{
    let said = numbers::of_map_read(taken, records, moves, ending);
    let given = said.answer;
    if given.refusal > 0 {
        return refused(out, said);
    }
    moved(out, given, place, list);
}
