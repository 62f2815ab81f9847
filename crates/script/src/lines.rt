// Lines of a script as they are read, piece by piece.
ghost use Rattle.std.specs.Prelude.{◌≡◌, ◌++◌, ◌+◌, ◌≤◌, ltb, length, take};
ghost use Rattle.script.specs.Words.{reach as reach·of};

use crate::bytes::put;
use crate::words::reach;

// A line's buffer and the count of its bytes stand side by side: the caller holds the buffer as an array (no heap), and a struct of the two would
// be built and taken apart by this one caller alone, so it is no plainer.

// More bytes of a line behind the first n that are kept, as far as there is room; how many are kept then.
fn keep(line: &mut [u8], n: usize, more: &[u8]) -> usize
    requires { n ≤ length line.old }
    ensures line_after { take result line.new ≡ take (length line.old) (take n line.old ++ more.now) }
    ensures upper_bound { result ≤ length line.old }
{
    let fits = more.len().min(line.len() - n);
    put(line, n, &more[0..fits]);
    n + fits
}

// What a piece of the script adds to the line at hand: how many of its bytes are kept, how many of the piece are passed, and whether the line
// has ended.
// `ended` is no Option around the rest: both counts hold either way.
#[derive(Drop)]
pub struct Part {
    pub kept: usize,
    pub passed: usize,
    pub ended: bool,
}

// Keeps what stands before the piece's first line end, behind the first n bytes of the line.
#[tactic(auto, using(crate::specs::Laws::Words::reach_le))]
pub fn line_part(line: &mut [u8], n: usize, piece: &[u8]) -> Part
    requires { n ≤ length line.old }
    ensures line_after { take result.kept line.new ≡ take (length line.old)
        (take n line.old ++ take (reach·of 10 piece.now) piece.now) }
    ensures ended_value { result.ended ≡ ltb (reach·of 10 piece.now) (length piece.now) }
    ensures kept_in_bounds { (result.kept ≤ length line.old) × (result.passed ≤ length piece.now) }
{
    let end = reach(piece, b'\n');
    let kept = keep(line, n, &piece[0..end]);
    let ended = end < piece.len();
    Part {
        kept,
        passed: end + usize::from(ended),
        ended,
    }
}
