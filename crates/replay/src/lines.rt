// The lines of the input, read piece by piece.
ghost use Rattle.std.specs.Prelude.{◌≡◌, ◌≤◌, take};

use std::io::{Error, Read};

// What is read and not yet used: the bytes of `input` from `from` up to `to`. And the line read last: one byte more than a line may have,
// so that one that is too long shows.
#[derive(Drop)]
pub struct Lines {
    input: [u8; 65536],
    from: usize,
    to: usize,
    line: [u8; 20001],
    ghost ordered: { from ≤ to },
    ghost within: { to ≤ 65536 },
}

impl Lines {
    pub fn new() -> Lines {
        Lines {
            input: [0; 65536],
            from: 0,
            to: 0,
            line: [0; 20001],
        }
    }

    // Whether a byte is at hand; where none is, after one more read.
    fn at_hand<R: Read>(&mut self, reader: &mut R) -> Result<bool, Error> {
        if self.from < self.to {
            return Ok(true);
        }
        self.from = 0;
        self.to = 0;
        self.to = reader.read(&mut self.input)?;
        Ok(0 < self.to)
    }

    // How many bytes of the next line, without its end, are kept: of one that is too long as many as there is room for. None at the end of
    // the input. A read that fails within a line ends it.
    pub fn next_line<R: Read>(&mut self, reader: &mut R) -> Result<Option<usize>, Error> {
        let mut kept = None;
        for _ in 0..u64::MAX {
            match self.at_hand(reader) {
                Ok(true) => {}
                Err(error) if kept.is_none() => return Err(error),
                _ => return Ok(kept),
            }
            let input = &self.input[..];
            let piece = &input[self.from..self.to];
            let part = script::line_part(&mut self.line, kept.unwrap_or(0), piece);
            kept = Some(part.kept);
            self.from += part.passed;
            if part.ended {
                return Ok(kept);
            }
        }
        Ok(kept)
    }

    // The first n bytes of the line read last.
    pub fn line(&self, n: usize) -> &[u8]
        ensures { result.now ≡ take n self.now.line }
    {
        &self.line[..n.min(self.line.len())]
    }
}
