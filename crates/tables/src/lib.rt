// Building tables (docs/RULES.md, 2 and 3): one builder for the machines of every part of a layout.
#![tactic(auto)]

ghost use Rattle.std.specs.Prelude.{◌≡◌, cond, [], ◌∷◌, length};
ghost use Rattle.matching.specs.Parts.{split_layout, whole_layout};
ghost use Rattle.tables.specs.Building.{built_of, needed_of, tables_of};
ghost use Rattle.tables.specs.Sliced.{Sliced};
ghost use Rattle.tables.specs.declared.BuildFault.TheVariants.{Set};

use good_set::GoodSet;
use kinds::{EXACT, FOLDED, Takes};
use parts::{fill_part, judge_part, part_needs};
use tagset::SetFault;

mod good_set;
mod parts;

// Why no tables are built: the set's fault; or the lowest machine short of slots, by its name, and the states that it needs.
#[derive(Clone, Copy, Debug, PartialEq, Eq)]
pub enum BuildFault {
    Set(SetFault),
    Table(usize, usize),
}

impl From<SetFault> for BuildFault {
    ghost from_gives = { λ fault e. e ≡ Set fault };

    fn from(fault: SetFault) -> BuildFault {
        BuildFault::Set(fault)
    }
}

// The slots that the first and the second part of a layout need for a set, 0 where there is no second.
#[derive(Clone, Copy, Debug, PartialEq, Eq)]
pub struct Needed {
    pub first: usize,
    pub second: usize,
}

// A part of a layout: the kind of its tags, so many bits for each of its machines, the name of the first of them, the letters that the bits make,
// and the mask that leaves them.
#[derive(Clone, Copy)]
struct Part {
    kind: usize,
    bits: usize,
    machines: usize,
    name: usize,
    letters: usize,
    mask: u8,
    ghost sliced: { Sliced bits machines name letters mask },
}

// The split layout has two parts, each with a machine for each bit of a byte.
const BIT_MACHINES: usize = 8;

const EXACT_BITS: Part = Part {
    kind: EXACT,
    bits: 1,
    machines: BIT_MACHINES,
    name: 0,
    letters: 2,
    mask: 1,
};

const FOLDED_BITS: Part = Part {
    kind: FOLDED,
    bits: 1,
    machines: BIT_MACHINES,
    name: 8,
    letters: 2,
    mask: 1,
};

// The whole-byte layout has one.
const WHOLE_BYTES: Part = Part {
    kind: EXACT,
    bits: 8,
    machines: 1,
    name: 254,
    letters: 256,
    mask: 255,
};

// The split tables of a set, one for its exact and one for its folded tags; and whether they are to be written. The answer, the number of tags, is the
// same either way. Both parts are judged before either is written.
pub fn build_split_if(
    set: &[u8],
    first: &mut [u16],
    second: &mut [u16],
    write: bool,
) -> Result<usize, BuildFault>
    ensures answer { result ≡ built_of split_layout set.now (length first.old ∷ length second.old ∷ []) }
    ensures left { first.new ∷ second.new ∷ []
        ≡ cond write (tables_of split_layout set.now (first.old ∷ second.old ∷ []))
        (first.old ∷ second.old ∷ []) }
{
    let good = GoodSet::read(set, Takes::BothKinds)?;
    judge_part(&good, EXACT_BITS, first.len())?;
    judge_part(&good, FOLDED_BITS, second.len())?;
    if write {
        fill_part(&good, EXACT_BITS, first);
        fill_part(&good, FOLDED_BITS, second);
    }
    Ok(good.places.count)
}

// The split tables of a set.
pub fn build_split(set: &[u8], first: &mut [u16], second: &mut [u16]) -> Result<usize, BuildFault>
    ensures answer { result ≡ built_of split_layout set.now (length first.old ∷ length second.old ∷ []) }
    ensures left { first.new ∷ second.new ∷ []
        ≡ tables_of split_layout set.now (first.old ∷ second.old ∷ []) }
{
    build_split_if(set, first, second, true)
}

// The whole-byte table of a set, of exact tags alone. It stands beside `build_split_if`: docs/PROMISES.md names both, and they are lent other runs.
pub fn build_whole(set: &[u8], table: &mut [u16]) -> Result<usize, BuildFault>
    ensures answer { result ≡ built_of whole_layout set.now (length table.old ∷ []) }
    ensures left { table.new ∷ [] ≡ tables_of whole_layout set.now (table.old ∷ []) }
{
    let good = GoodSet::read(set, Takes::ExactAlone)?;
    judge_part(&good, WHOLE_BYTES, table.len())?;
    fill_part(&good, WHOLE_BYTES, table);
    Ok(good.places.count)
}

// The slots that the two split tables need for a set; or its fault.
pub fn slots_needed(set: &[u8]) -> Result<Needed, SetFault>
    ensures { result ≡ needed_of split_layout set.now }
{
    let good = GoodSet::read(set, Takes::BothKinds)?;
    Ok(Needed {
        first: part_needs(&good, EXACT_BITS),
        second: part_needs(&good, FOLDED_BITS),
    })
}

// The slots that the whole-byte table needs for a set; or its fault. Named beside `slots_needed` in docs/PROMISES.md, for other runs.
pub fn whole_slots_needed(set: &[u8]) -> Result<Needed, SetFault>
    ensures { result ≡ needed_of whole_layout set.now }
{
    let good = GoodSet::read(set, Takes::ExactAlone)?;
    Ok(Needed {
        first: part_needs(&good, WHOLE_BYTES),
        second: 0,
    })
}
