// BYTES, put into a buffer that holds those of any line: how many of its bytes they are, or that the word is none.
ghost use Rattle.std.specs.Prelude.{◌≡◌, ◌+◌, ◌≤◌, length};
ghost use Rattle.std.proofs.Math.Seq.{paste};
ghost use Rattle.script.specs.Bytes.{bytes_in, count_of, hex_of, quoted_of, bytes_of};

use crate::numbers::digit;
use crate::words::reach;

// The bytes of a part, into the buffer from `at` on.
pub fn put(buffer: &mut [u8], at: usize, part: &[u8])
    requires { at + length part.now ≤ length buffer.old }
    ensures { buffer.new ≡ paste buffer.old at part.now (length part.now) }
{
    let end = at + part.len();
    buffer[at..end].copy_from_slice(part);
}

// Each two digits as a byte.
#[tactic(auto, unfolding(crate::specs::Bytes::hex_of))]
fn hex(digits: &[u8], buffer: &mut [u8]) -> Option<usize>
    requires { length digits.now ≤ length buffer.old }
    ensures result_after { bytes_in buffer.new result ≡ hex_of digits.now }
    ensures result_in_bounds { count_of result ≤ length digits.now }
{
    if digits.len() % 2 != 0 {
        return None;
    }
    let count = digits.len() / 2;
    for n in 0..count {
        let high = digit(digits[2 * n])?;
        let low = digit(digits[2 * n + 1])?;
        buffer[n] = high * 16 + low;
    }
    Some(count)
}

// What stands behind the first quotation mark.
#[tactic(auto, using(crate::specs::Laws::Words::reach_le), unfolding(crate::specs::Bytes::quoted_of))]
fn quoted(rest: &[u8], buffer: &mut [u8]) -> Option<usize>
    requires { length rest.now ≤ length buffer.old }
    ensures result_after { bytes_in buffer.new result ≡ quoted_of rest.now }
    ensures result_in_bounds { count_of result ≤ length rest.now }
{
    let n = reach(rest, b'"');
    if n + 1 != rest.len() {
        return None;
    }
    put(buffer, 0, &rest[..n]);
    Some(n)
}

#[tactic(auto, using(crate::specs::Laws::Bytes::by_first))]
pub fn bytes_of(word: &[u8], buffer: &mut [u8]) -> Option<usize>
    requires { length word.now ≤ length buffer.old }
    ensures result_after { bytes_in buffer.new result ≡ bytes_of word.now }
    ensures result_in_bounds { count_of result ≤ length word.now }
{
    let [first, rest @ ..] = word else {
        return None;
    };
    match first {
        b'x' => hex(rest, buffer),
        b'"' => quoted(rest, buffer),
        b'-' if rest.is_empty() => Some(0),
        _ => None,
    }
}
