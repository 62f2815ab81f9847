// The tags of a machine, where their letters lie.
ghost use Rattle.std.specs.Prelude.{◌≡◌, ◌≤◌, [], length, get_or};

use crate::tag_bytes;

// Tags that lie in a run of letters: tag t from from[t] up to to[t], and each that begins there ends. There are no more than a set has.
#[derive(Clone, Copy)]
pub struct Words<'a> {
    pub letters: &'a [u8],
    pub from: &'a [usize],
    pub to: &'a [usize],
    pub ghost ended: { length from.now ≤ length to.now },
    pub ghost few: { length from.now ≤ 16 },
}

impl<'a> Words<'a> {
    ghost use Rattle.tagset.specs.Cutting.{words_of};

    pub fn count(&self) -> usize
        ensures counted { result ≡ length (words_of self.now) }
        ensures few { result ≤ 16 }
    {
        self.from.len()
    }

    // The letters of tag t; none where there is no such tag.
    pub fn tag(&self, t: usize) -> &'a [u8]
        ensures { result.now ≡ get_or (words_of self.now) t [] }
    {
        tag_bytes(self.letters, self.from, self.to, t)
    }
}
