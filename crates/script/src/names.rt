// The names of the calls and of the layouts.
ghost use Rattle.std.specs.Prelude.{◌≡◌};
ghost use Rattle.script.specs.Calls.{name_of, layout_of, first_row};

use crate::Layout;

#[derive(Clone, Copy)]
pub enum Name {
    Set,
    Lend,
    Replace,
    Open,
    Feed,
    Close,
    State,
    Take,
    Show,
    Build,
    Read,
    Poke,
    Peek,
}

const LAYOUTS: [(&[u8], Layout); 3] = [
    (b"split", Layout::Split),
    (b"whole", Layout::Whole),
    (b"bitmap", Layout::Bitmap),
];

const NAMES: [(&[u8], Name); 13] = [
    (b"set", Name::Set),
    (b"lend", Name::Lend),
    (b"build", Name::Build),
    (b"read", Name::Read),
    (b"poke", Name::Poke),
    (b"peek", Name::Peek),
    (b"replace", Name::Replace),
    (b"open", Name::Open),
    (b"feed", Name::Feed),
    (b"close", Name::Close),
    (b"state", Name::State),
    (b"take", Name::Take),
    (b"show", Name::Show),
];

// What the row says whose call the word is.
fn row_of<A: Copy>(rows: &[(&[u8], A)], word: &[u8]) -> Option<A>
    ensures { result ≡ first_row (λ row. row.0.now) (λ row. row.1) word.now rows.now }
{
    rows.iter().find(|row| row.0 == word).map(|row| row.1)
}

#[tactic(auto, unfolding(crate::specs::Calls::layout_of))]
pub fn layout_of(word: &[u8]) -> Option<Layout>
    ensures { result ≡ layout_of word.now }
{
    row_of(&LAYOUTS, word)
}

#[tactic(auto, unfolding(crate::specs::Calls::name_of, crate::specs::Calls::desk_name))]
pub fn name_of(word: &[u8]) -> Option<Name>
    ensures { result ≡ name_of word.now }
{
    row_of(&NAMES, word)
}
