// The lines of a replay script: what call a line makes, if any. Every line gives an answer.
#![tactic(auto)]

mod bytes;
mod lines;
mod names;
mod numbers;
mod reads;
mod sets;
mod tables;
mod words;

ghost use Rattle.std.specs.Prelude.{◌≡◌, ◌≤◌, length};
ghost use Rattle.script.specs.Words.{word_of};
ghost use Rattle.script.specs.Words.{behind as behind·of};
ghost use Rattle.script.specs.Numbers.{number_of};
ghost use Rattle.script.specs.Bytes.{bytes_of};
ghost use Rattle.script.specs.Sets.{set_of};
ghost use Rattle.script.specs.Calls.{Bounded, Plain, Says, Alone, Called, call_of, made, meant, set_by, feed_by, close_by, state_by, build_by, layout_of};

use bytes::bytes_of;
pub use bytes::put;
pub use lines::{Part, line_part};
use names::Name;
use numbers::number_of;
pub use reads::machines;
use words::{behind, word};

#[derive(Clone, Copy)]
pub enum Layout {
    Split,
    Whole,
    Bitmap,
}

#[derive(Clone, Copy)]
pub enum Table {
    First,
    Second,
}

// What a line asks for: nothing, an answer that it is no call, or a call. These are three, so that no Option has their shape; the functions that
// read a call's words give an Option of it. A call's numbers, and behind them its table; of its bytes, how many the buffer begins with.
#[derive(Drop)]
pub enum Call {
    PassedOver,
    NotACall,
    Set(usize),
    Lend(usize, Table),
    Replace,
    Open,
    Feed(u32, usize),
    Close(u32),
    State(u32),
    Take,
    Show,
    Build(Layout),
    Read(ReadCall),
    Poke(usize, u16, Table),
    Peek(usize, usize, Table),
}

// A read outside the desk: so many bytes were taken before, its list has so many numbers, and the numbers of its place: 16, or 1 and zeros.
#[derive(Drop)]
pub struct ReadCall {
    pub layout: Layout,
    pub count: u32,
    pub room: usize,
    pub place: [u16; 16],
    pub piece: usize,
}

const LONGEST: usize = 20000;

// The call of a line without its end; its bytes are put into the buffer.
#[tactic(auto, using(crate::specs::Laws::Calls::call_long, crate::specs::Laws::Calls::call_empty, crate::specs::Laws::Calls::call_comment))]
pub fn call_of(line: &[u8], buffer: &mut [u8; 20000]) -> Call
    ensures call_after { meant buffer.new result ≡ call_of line.now }
    ensures bounded { Bounded result }
{
    if LONGEST < line.len() {
        return Call::NotACall;
    }
    if let [] | [b'#', ..] = line {
        return Call::PassedOver;
    }
    let Some(name) = names::name_of(word(line)) else {
        return Call::NotACall;
    };
    let whole = words::reach(line, b' ') == line.len();
    by_name(name, whole, behind(line), buffer).unwrap_or(Call::NotACall)
}

// A call by its name, whether that is the whole line, and the words behind it.
fn by_name(name: Name, whole: bool, words: &[u8], buffer: &mut [u8]) -> Option<Call>
    requires { (length words.now ≤ 20000) × (20000 ≤ length buffer.old) }
    ensures { Called name whole words.now buffer.new (made result) }
{
    match name {
        Name::Set => set(words, buffer),
        Name::Lend => tables::lend(words),
        Name::Replace => alone(whole, Call::Replace),
        Name::Open => alone(whole, Call::Open),
        Name::Feed => feed(words, buffer),
        Name::Close => close(words),
        Name::State => state(words),
        Name::Take => alone(whole, Call::Take),
        Name::Show => alone(whole, Call::Show),
        Name::Build => build(words),
        Name::Read => reads::read(words, buffer),
        Name::Poke => tables::poke(words),
        Name::Peek => tables::peek(words),
    }
}

fn alone(whole: bool, call: Call) -> Option<Call>
    ensures { Alone whole call (made result) }
{
    whole.then_some(call)
}

fn set(words: &[u8], buffer: &mut [u8]) -> Option<Call>
    requires { (length words.now ≤ 20000) × (20000 ≤ length buffer.old) }
    ensures { Says buffer.new (set_by (set_of words.now)) (made result) }
{
    let n = sets::set_bytes(words, buffer)?;
    Some(Call::Set(n))
}

#[tactic(auto, using(crate::specs::Laws::Words::lengths))]
fn feed(words: &[u8], buffer: &mut [u8]) -> Option<Call>
    requires { (length words.now ≤ 20000) × (20000 ≤ length buffer.old) }
    ensures { Says buffer.new (feed_by (number_of 4294967295 (word_of words.now)) (bytes_of (behind·of words.now))) (made result) }
{
    let serial = number_of(word(words), u32::MAX)?;
    let n = bytes_of(behind(words), buffer)?;
    Some(Call::Feed(serial, n))
}

fn close(words: &[u8]) -> Option<Call>
    ensures { Plain (close_by (number_of 4294967295 words.now)) (made result) }
{
    let serial = number_of(words, u32::MAX)?;
    Some(Call::Close(serial))
}

fn state(words: &[u8]) -> Option<Call>
    ensures { Plain (state_by (number_of 4294967295 words.now)) (made result) }
{
    let serial = number_of(words, u32::MAX)?;
    Some(Call::State(serial))
}

fn build(words: &[u8]) -> Option<Call>
    ensures { Plain (build_by (layout_of words.now)) (made result) }
{
    let layout = names::layout_of(words)?;
    Some(Call::Build(layout))
}
