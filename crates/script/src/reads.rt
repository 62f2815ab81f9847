// `read`: LAYOUT COUNT ROOM PLACE... BYTES.
ghost use Rattle.std.specs.Prelude.{◌≡◌, ◌≤◌, length};
ghost use Rattle.script.specs.Words.{word_of};
ghost use Rattle.script.specs.Words.{behind as behind·of};
ghost use Rattle.script.specs.Calls.{Says, made, layout_of, machines_of, place_in, place_of, read_from, read_over, read_on};

use crate::bytes::bytes_of;
use crate::names::layout_of;
use crate::numbers::number_of;
use crate::words::{behind, skipped, word};
use crate::{Call, Layout, ReadCall};

// How many numbers a place of a layout has.
pub fn machines(layout: Layout) -> usize
    ensures { result ≡ machines_of layout }
{
    match layout {
        Layout::Split => 16,
        Layout::Whole => 1,
        Layout::Bitmap => 1,
    }
}

// The numbers of a place, where all its words are numbers.
#[tactic(auto, using(crate::specs::Laws::Calls::places))]
fn place_of(words: &[u8], k: usize) -> Option<[u16; 16]>
    requires { k ≤ 16 }
    ensures { place_in k result ≡ place_of k words.now }
{
    let mut numbers = [0u16; 16];
    let mut rest = words;
    for i in 0..k {
        numbers[i] = number_of(word(rest), 65535)? as u16;
        rest = behind(rest);
    }
    Some(numbers)
}

#[tactic(auto, using(crate::specs::Laws::Words::lengths))]
pub fn read(words: &[u8], buffer: &mut [u8]) -> Option<Call>
    requires { (length words.now ≤ 20000) × (20000 ≤ length buffer.old) }
    ensures { Says buffer.new (read_on (layout_of (word_of words.now)) (behind·of words.now)) (made result) }
{
    let layout = layout_of(word(words))?;
    read_over(layout, behind(words), buffer)
}

// COUNT ROOM PLACE... BYTES
#[tactic(auto, using(crate::specs::Laws::Words::lengths), unfolding(crate::specs::Calls::read_over))]
fn read_over(layout: Layout, words: &[u8], buffer: &mut [u8]) -> Option<Call>
    requires { (length words.now ≤ 20000) × (20000 ≤ length buffer.old) }
    ensures { Says buffer.new (read_over layout words.now) (made result) }
{
    let count = number_of(word(words), u32::MAX)?;
    let room = number_of(word(behind(words)), 2048)?;
    read_from(layout, count, room, skipped(words, 2), buffer)
}

// PLACE... BYTES
#[tactic(auto, using(crate::specs::Laws::Words::lengths), unfolding(crate::specs::Calls::read_from))]
fn read_from(layout: Layout, count: u32, room: u32, words: &[u8], buffer: &mut [u8]) -> Option<Call>
    requires { (length words.now ≤ 20000) × (20000 ≤ length buffer.old) × (room ≤ 2048) }
    ensures { Says buffer.new (read_from layout count room words.now) (made result) }
{
    let k = machines(layout);
    let place = place_of(words, k)?;
    let piece = bytes_of(skipped(words, k), buffer)?;
    Some(Call::Read(ReadCall {
        layout,
        count,
        room: room as usize,
        place,
        piece,
    }))
}
