// For whoever feeds a piece to its end, and takes every record whenever a feed stops.
ghost use Rattle.std.specs.Prelude.{◌≡◌};
ghost use Rattle.desk.specs.Feed.{taken_by};

use crate::{Advance, FeedRefusal};

// The bytes that a feed took; none where it was refused.
pub fn taken_by(answer: Result<Advance, FeedRefusal>) -> usize
    ensures { result ≡ taken_by answer }
{
    answer.map_or(0, |advance| advance.taken)
}
