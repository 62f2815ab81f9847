// The lines that the bench program writes.
ghost use Rattle.std.specs.Prelude.{◌≤◌};
ghost use Rattle.output.specs.Buffer.{Puts};
ghost use Rattle.serving.specs.Lines.{answer_line, record_line, record_lines, taken_line};

use desk::{ReplaceRefusal, Replaced};
use output::Buffer;

// The line for the set, as `replay` writes it; of TABLE the number alone.
pub fn put_answer(out: &mut Buffer, answer: Result<Replaced, ReplaceRefusal>)
    ensures { Puts out.old (answer_line answer) out.new }
{
    let said = numbers::of_replace(answer).answer;
    match answer {
        Err(ReplaceRefusal::Table(_, _)) => answers::word_line(out, b"refused ", said.refusal),
        _ => answers::replaced(out, answer),
    }
}

fn put_record(out: &mut Buffer, serial: u32, end: u32, tag: u32)
    ensures { Puts out.old (record_line serial end tag) out.new }
{
    out.put_number(u64::from(serial));
    out.put_byte(b' ');
    out.put_number(u64::from(end));
    out.put_byte(b' ');
    out.put_number(u64::from(tag));
    out.put_line_end();
}

// A line for each of the first records of a list, four numbers each: serial, edition, end, tag.
pub(crate) fn put_records(out: &mut Buffer, list: &[u32; 1024], count: usize)
    requires { count ≤ 256 }
    ensures { Puts out.old (record_lines count list.now) out.new }
{
    for j in 0..count {
        let i = 4 * j;
        put_record(out, list[i], list[i + 2], list[i + 3]);
    }
}

pub fn put_taken(out: &mut Buffer, taken: u32)
    ensures { Puts out.old (taken_line taken) out.new }
{
    answers::word_line(out, b"taken ", u64::from(taken));
}
