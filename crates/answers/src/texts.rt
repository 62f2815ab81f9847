// Words and numbers of an answer.
ghost use Rattle.std.specs.Prelude.{◌∷◌, []};
ghost use Rattle.output.specs.Buffer.{Puts};
ghost use Rattle.answers.specs.Answers.{numbered, listed, word_line, not_acall_line, first_two, said_line};

use numbers::Said;
use output::Buffer;

pub fn put_numbered(out: &mut Buffer, words: &[u8], n: u64)
    ensures { Puts out.old (numbered words.now n) out.new }
{
    out.put_words(words);
    out.put_number(n);
}

pub fn put_blank_number(out: &mut Buffer, n: u64)
    ensures { Puts out.old (numbered (32 ∷ []) n) out.new }
{
    out.put_byte(b' ');
    out.put_number(n);
}

// Two, for numbers of 16 bits and of 32: over any T with `u64: From<T>` the clause would have to speak of what `from` gives for each number
// of a list, and a law would have to take that back for each T, so one generic function is no plainer than a second loop of one line.
#[tactic(auto, unfolding(output::specs::Buffer::put_bytes, crate::specs::Answers::listed))]
pub fn put_numbers(out: &mut Buffer, numbers: &[u16])
    ensures { Puts out.old (listed [] numbers.now) out.new }
{
    for number in numbers {
        put_blank_number(out, u64::from(*number));
    }
}

#[tactic(auto, unfolding(output::specs::Buffer::put_bytes, crate::specs::Answers::listed))]
pub fn put_wide_numbers(out: &mut Buffer, numbers: &[u32])
    ensures { Puts out.old (listed [] numbers.now) out.new }
{
    for number in numbers {
        put_blank_number(out, u64::from(*number));
    }
}

pub fn word_line(out: &mut Buffer, words: &[u8], n: u64)
    ensures { Puts out.old (word_line words.now n) out.new }
{
    put_numbered(out, words, n);
    out.put_line_end();
}

pub fn not_a_call(out: &mut Buffer, line: u64)
    ensures { Puts out.old (not_acall_line line) out.new }
{
    put_numbered(out, b"line ", line);
    out.put_words(b": not a call\n");
}

// As many of the first two values as there are.
#[tactic(auto, using(crate::specs::Laws::Said::two_values, output::specs::Laws::Waiting::put_append), unfolding(output::specs::Buffer::put_bytes, crate::specs::Answers::listed))]
fn put_values(out: &mut Buffer, count: u64, first: u64, second: u64)
    ensures { Puts out.old (listed [] (first_two count first second)) out.new }
{
    if count == 0 {
        return;
    }
    put_blank_number(out, first);
    if count == 1 {
        return;
    }
    put_blank_number(out, second);
}

#[tactic(auto, using(output::specs::Laws::Waiting::put_append), unfolding(output::specs::Buffer::put_bytes, crate::specs::Answers::refused_line))]
pub fn refused(out: &mut Buffer, said: Said)
    ensures { Puts out.old (said_line said) out.new }
{
    let answer = said.answer;
    put_numbered(out, b"refused ", answer.refusal);
    put_values(out, said.count, answer.a, answer.b);
    out.put_line_end();
}
