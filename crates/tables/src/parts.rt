// The machines of one part of a layout: they have the tags of one kind, and see the bytes of the set as that kind reads them.
ghost use Rattle.std.specs.Prelude.{◌≡◌, List, ◌++◌, ℕ, ◌+◌, ◌*◌, ◌<◌, ◌≤◌, length, drop};
ghost use Rattle.matching.specs.Enough.{EnoughFor};
ghost use Rattle.matching.specs.Machine.{states};
ghost use Rattle.matching.specs.Parts.{named, part_room, part_slots, part_table};
ghost use Rattle.matching.specs.Table.{slot_size, tags_for, built, room_from};
ghost use Rattle.matching.specs.Tags.{word_as};
ghost use Rattle.choosing.specs.Choosing.{ChosenOf, lying_in, own_words};
ghost use Rattle.tables.specs.Building.{most_states, part_needs};
ghost use Rattle.machines.specs.Rows.{Filled};
ghost use Rattle.tables.specs.Props.{tagged_prop};
ghost use Rattle.tables.specs.Shape.{Marked, Tagged, as_part, judged_by, mark_by};

use super::{BuildFault, Part};
use crate::good_set::GoodSet;
use choosing::{Chosen, choose, deal_out};
use machines::{count_states, make_slots, spell};
use matching::slots;
use tagset::Words;

// A part over a set: the set's bytes as its kind reads them, and the places of its own tags.
#[derive(Clone, Copy)]
struct Machines<'a> {
    part: Part,
    bytes: &'a [u8],
    own: Chosen,
    ghost tagged: { Tagged bytes.now own (own_words bytes.now own) } by { tagged_prop bytes.now own (own_words bytes.now own) },
}

impl<'a> Machines<'a> {
    fn of(good: &'a GoodSet, part: Part) -> Machines<'a>
        ensures { (result.part ≡ part) × (result.bytes.now ≡ word_as part.kind good.now.bytes.now) × ChosenOf part.kind good.now.places result.own }
    {
        Machines {
            part,
            bytes: good.read_as(part.kind),
            own: choose(good.places, part.kind),
        }
    }

    // The states that machine m needs.
    fn states_of(&self, m: usize) -> usize
        requires { m < self.now.part.machines }
        ensures { let ts = own_words self.now.bytes.now self.now.own in result ≡ states (tags_for self.now.part.bits ts m) }
    {
        let part = self.part;
        let mut letters = [0u8; 576];
        spell(self.bytes, m * part.bits, part.mask, &mut letters);
        let n = self.bytes.len();
        let own = self.own;
        let count = own.count;
        let from = own.from;
        let to = own.to;
        count_states(&Words {
            letters: &letters[..n],
            from: &from[..count],
            to: &to[..count],
        })
    }

    // The slots of machine m, with vectors over the part's own tags.
    fn make_machine(&self, m: usize, run: &mut [u16])
        requires { let ts = own_words self.now.bytes.now self.now.own in (m < self.now.part.machines)
            × (states (tags_for self.now.part.bits ts m) * (self.now.part.letters + 1) ≤ length run.old) }
        ensures { let ts = own_words self.now.bytes.now self.now.own in Filled (tags_for self.now.part.bits ts m) self.now.part.letters run.new }
    {
        let part = self.part;
        let mut letters = [0u8; 576];
        spell(self.bytes, m * part.bits, part.mask, &mut letters);
        let n = self.bytes.len();
        let own = self.own;
        let count = own.count;
        let from = own.from;
        let to = own.to;
        let words = Words {
            letters: &letters[..n],
            from: &from[..count],
            to: &to[..count],
        };
        make_slots(&words, part.letters, run);
    }

    // The slots of machine m, with vectors over all tags, whose kinds these are.
    fn fill_machine(&self, kinds: &[usize], m: usize, run: &mut [u16])
        requires { let ts = own_words self.now.bytes.now self.now.own in (m < self.now.part.machines) × (length kinds.now ≤ 16)
            × (states (tags_for self.now.part.bits ts m) * (self.now.part.letters + 1) ≤ length run.old) }
        ensures { let part = self.now.part in let ts = own_words self.now.bytes.now self.now.own in
            Marked (tags_for part.bits ts m) (mark_by part.kind kinds.now part.bits ts m) part.letters run.new }
    {
        self.make_machine(m, run);
        let part = self.part;
        deal_out(kinds, part.kind, part.letters, run);
    }

    // Every machine's slots, one machine behind the other.
    fn fill(&self, kinds: &[usize], s: usize, table: &mut [u16])
        requires { let part = self.now.part in let ts = own_words self.now.bytes.now self.now.own in (length kinds.now ≤ 16)
            × (part.machines * (s * (part.letters + 1)) ≤ length table.old)
            × ((m : ℕ) → m < part.machines → states (tags_for part.bits ts m) ≤ s) }
        ensures { let part = self.now.part in let ts = own_words self.now.bytes.now self.now.own in
            table.new ≡ built part.bits part.machines s ts (mark_by part.kind kinds.now part.bits ts)
            ++ drop (part.machines * (s * slot_size part.bits)) table.old }
    {
        let size = s * (self.part.letters + 1);
        let mut at = 0;
        for m in 0..self.part.machines {
            let end = at + size;
            self.fill_machine(kinds, m, &mut table[at..end]);
            at = end;
        }
    }

    // Whether so many slots are enough, or the lowest machine short of them: all are counted.
    fn judge(&self, s: usize) -> Result<(), BuildFault>
        ensures { let part = self.now.part in let ts = own_words self.now.bytes.now self.now.own in
            result ≡ judged_by (named (as_part part) (room_from part.bits s ts 0 part.machines)) }
    {
        let machines = self.part.machines;
        for m in 0..machines {
            let needs = self.states_of(m);
            if s < needs {
                return Err(BuildFault::Table(self.part.name + m, needs));
            }
        }
        Ok(())
    }

    // The most states that one of the machines needs.
    fn most_states(&self) -> usize
        ensures { let ts = own_words self.now.bytes.now self.now.own in result ≡ most_states self.now.part.bits ts 0 self.now.part.machines }
    {
        let mut most = 0;
        for m in (0..self.part.machines).rev() {
            most = self.states_of(m).max(most);
        }
        most
    }
}

// Whether a run of so many numbers has slots enough for a part, or the lowest machine that is short of them. Nothing is written.
pub fn judge_part(good: &GoodSet, part: Part, len: usize) -> Result<(), BuildFault>
    ensures { let tags = lying_in good.now.bytes.now good.now.places in result ≡ judged_by (part_room (as_part part) tags (part_slots (as_part part) len)) }
{
    Machines::of(good, part).judge(slots(len, part.bits, part.machines))
}

// The slots that a part needs for the tags.
pub fn part_needs(good: &GoodSet, part: Part) -> usize
    ensures { result ≡ part_needs (as_part part) (lying_in good.now.bytes.now good.now.places) }
{
    Machines::of(good, part).most_states()
}

// The machines of a part, at the front of its run.
pub fn fill_part(good: &GoodSet, part: Part, table: &mut [u16])
    requires { let tags = lying_in good.now.bytes.now good.now.places in EnoughFor (as_part part) tags (part_slots (as_part part) (length table.old)) }
    ensures { let tags = lying_in good.now.bytes.now good.now.places in table.new ≡ part_table (as_part part) tags table.old }
{
    let s = slots(table.len(), part.bits, part.machines);
    let count = good.places.count;
    Machines::of(good, part).fill(&good.places.kinds[..count], s, table);
}
