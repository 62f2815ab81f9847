// Whether the tags of a set are distinct, by their kinds.
ghost use Rattle.tagset.specs.Lying.{Lying};

use crate::{SetFault, read_as, tag_bytes};

// The bytes of a set as they are and folded, and where its tags lie, with their kinds: tag t from from[t] up to to[t], of kind kinds[t].
#[derive(Clone, Copy)]
pub struct ReadTags<'a> {
    pub set: &'a [u8],
    pub folded: &'a [u8],
    pub from: &'a [usize],
    pub to: &'a [usize],
    pub kinds: &'a [usize],
    pub ghost lying: { Lying set.now folded.now from.now to.now kinds.now },
}

impl<'a> ReadTags<'a> {
    ghost use Rattle.std.specs.Prelude.{◌≡◌, ◌&&◌, [], ◌<◌, eqb, length, get_or, take};
    ghost use Rattle.matching.specs.Tags.{no_tag, word_as};
    ghost use Rattle.matching.specs.Words.{same};
    ghost use Rattle.tagset.specs.Grammar.{among_tags, distinct};
    ghost use Rattle.tagset.specs.Answer.{cut_at, verdict_of};
    ghost use Rattle.tagset.specs.Cutting.{tags_read};

    // The bytes of tag t as a kind reads them; none where there is no such tag.
    fn tag(&self, kind: usize, t: usize) -> &'a [u8]
        ensures { result.now ≡ get_or (cut_at (word_as kind self.now.set.now) self.now.from.now self.now.to.now) t [] }
    {
        let bytes = read_as(kind, self.set, self.folded);
        tag_bytes(bytes, self.from, self.to, t)
    }

    // Whether tag i is of a kind, and has the same bytes as some that are read by it.
    fn equals(&self, tag: &[u8], kind: usize, i: usize) -> bool
        requires { i < length (tags_read self.now) }
        ensures { let own = get_or (tags_read self.now) i no_tag in result ≡ (eqb own.kind kind && same tag.now (word_as kind own.word)) }
    {
        if self.kinds[i] != kind {
            return false;
        }
        let earlier = self.tag(kind, i);
        tag == earlier
    }

    // Whether tag t equals an earlier one.
    fn repeats(&self, t: usize) -> bool
        requires { t < length (tags_read self.now) }
        ensures { let tags = tags_read self.now in result ≡ among_tags (get_or tags t no_tag) (take t tags) }
    {
        let kind = self.kinds[t];
        let tag = self.tag(kind, t);
        for i in 0..t {
            if self.equals(tag, kind, i) {
                return true;
            }
        }
        false
    }

    // The lowest-numbered tag that equals an earlier one is a fault.
    pub fn distinct(&self) -> Result<(), SetFault>
        ensures { result ≡ verdict_of (distinct [] 0 (tags_read self.now)) }
    {
        for t in 0..self.from.len() {
            if self.repeats(t) {
                return Err(SetFault::Repeat(t));
            }
        }
        Ok(())
    }
}
