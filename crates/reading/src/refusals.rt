// When a read is refused.
ghost use Rattle.std.specs.Prelude.{◌≡◌, ◌+◌, ltb};
ghost use Rattle.matching.specs.Limits.{largest};
ghost use Rattle.matching.specs.Refusal.{first_of};
ghost use Rattle.reading.specs.Refusals.{read_grounds, verdict_number};

use crate::ReadRefusal;

// The most bytes that are counted: `largest` in matching's specs/Limits.antt.
pub const LARGEST: u32 = 4294967295;

// PLACE, then LONG.
#[tactic(auto, unfolding(matching::specs::Refusal::first_of))]
pub fn judge(sound: bool, long: bool) -> Result<(), ReadRefusal>
    ensures { verdict_number result ≡ first_of (read_grounds sound long) }
{
    if !sound {
        return Err(ReadRefusal::Place);
    }
    if long {
        return Err(ReadRefusal::Long);
    }
    Ok(())
}

// Whether the bytes taken and the piece pass the largest count.
pub fn too_long(count: u32, len: usize) -> bool
    ensures { result ≡ ltb largest (count + len) }
{
    let left = (LARGEST - count) as usize;
    left < len
}
