// The tables of the split layout as a reading walks them.
ghost use Rattle.std.specs.Prelude.{◌≡◌, length};
ghost use Rattle.blocks.specs.Sleep.{starts_in};

use passing::steps::Machines;

// One of them: its eight machines and, where it is awake, its starts (`put_starts`).
#[derive(Clone, Copy)]
pub struct BitTable<'a> {
    pub machines: Machines<'a, 1>,
    pub starts: Option<&'a [usize]>,
    pub ghost long: { length (starts_in starts) ≡ 128 },
}

// That of exact tags, and that of folded ones.
#[derive(Clone, Copy)]
pub struct SplitTables<'a> {
    pub exact: BitTable<'a>,
    pub folded: BitTable<'a>,
}
