// The tags of one kind among those of a set (docs/RULES.md, 2): where they lie, and a vector over them made into one over the whole set.
#![tactic(auto)]

ghost use Rattle.std.specs.Prelude.{◌≡◌, ◌+◌, ◌<◌, ◌≤◌, length};
ghost use Rattle.matching.specs.Laws.Dealt.{dealt};
ghost use Rattle.choosing.specs.Choosing.{ChosenOf, PlacesFit};
ghost use Rattle.choosing.specs.Dealing.{DealtOut, Small, dealt_next, is_of};

use tagset::Places;

// Where the tags of one kind lie in the bytes of their set, in the order of the set. What stands past the count is nobody's. The arrays
// stay apart as those of `Places` do: `tag_bytes` is lent one of them each.
#[derive(Clone, Copy)]
pub struct Chosen {
    pub count: usize,
    pub from: [usize; 16],
    pub to: [usize; 16],
}

impl Chosen {
    ghost use Rattle.std.specs.Prelude.{◌≡◌, ◌<◌, length};
    ghost use Rattle.choosing.specs.Choosing.{RoomForAll, with_place};

    // One place behind those that are chosen.
    fn push(&mut self, a: usize, e: usize)
        requires { (self.old.count < 16) × RoomForAll self.old }
        ensures { self.new ≡ with_place self.old a e }
    {
        let n = self.count;
        self.from[n] = a;
        self.to[n] = e;
        self.count = n + 1;
    }
}

// The places of the tags of one kind.
pub fn choose(tags: Places, kind: usize) -> Chosen
    requires { PlacesFit tags }
    ensures { ChosenOf kind tags result }
{
    let mut own = Chosen {
        count: 0,
        from: [0; 16],
        to: [0; 16],
    };
    for i in 0..tags.count {
        if tags.kinds[i] == kind {
            own.push(tags.from[i], tags.to[i]);
        }
    }
    own
}

// A vector on its way: the bits that are left, the value of the next tag's bit, and what is dealt.
#[derive(Clone, Copy)]
struct Dealing {
    left: usize,
    value: usize,
    out: usize,
}

// The next tag gets the lowest bit that is left, if it is of the kind.
fn deal_next(d: Dealing, own: bool) -> Dealing
    requires { Small d }
    ensures { result ≡ dealt_next own d }
{
    let value = d.value * 2;
    if own {
        return Dealing {
            left: d.left / 2,
            value,
            out: d.out + d.value * (d.left % 2),
        };
    }
    Dealing { value, ..d }
}

// A vector over the tags of one kind, its bits given to the numbers that they have among all tags.
fn deal(v: u16, kinds: &[usize], kind: usize) -> u16
    requires { length kinds.now ≤ 16 }
    ensures { result ≡ dealt (is_of kind) kinds.now v }
{
    let mut d = Dealing {
        left: usize::from(v),
        value: 1,
        out: 0,
    };
    for own in kinds {
        if d.left == 0 {
            return d.out as u16;
        }
        d = deal_next(d, *own == kind);
    }
    d.out as u16
}

// The vector of every slot, where a slot has a next for each letter and its vector behind them. The vectors of most slots have no tag, and are
// passed over. The place is carried along: `step_by` tests twice a turn, and a place made of the slot's number is multiplied.
pub fn deal_out(kinds: &[usize], kind: usize, letters: usize, slots: &mut [u16])
    requires { (length kinds.now ≤ 16) × (letters ≤ 256) }
    ensures { DealtOut (dealt (is_of kind) kinds.now) letters slots.old slots.new }
{
    let size = letters + 1;
    let mut at = letters;
    for _ in 0..slots.len() / size {
        if slots[at] > 0 {
            slots[at] = deal(slots[at], kinds, kind);
        }
        at += size;
    }
}
