// Writing a byte's records: all of them or none. The list and the number of its records stay two arguments: a struct around them would hold
// a `&mut`, so each function would also have to promise that it keeps that very reference, which is more to read than the second argument.
ghost use Rattle.std.specs.Prelude.{◌≡◌, ◌+◌, ◌*◌, ◌≤◌, length};
ghost use Rattle.std.proofs.lemmas.List.Edits.{sets};
ghost use Rattle.matching.specs.Occurrence.{flat, occur_at};
ghost use Rattle.matching.specs.Reading.{ones_of};
ghost use Rattle.reading.specs.Records.{tag_if, emit_of, emitted};

// Writes the record (end, tag) as record w, if the bit is set. Gives the number of records then.
fn put_bit(list: &mut [u32], w: usize, end: u32, tag: u32, bit: u16) -> usize
    requires { 2 * (w + length (tag_if bit tag)) ≤ length list.old }
    ensures { (result ≡ w + length (tag_if bit tag)) × (list.new ≡ sets list.old (2 * w) (flat (occur_at end (tag_if bit tag)))) }
{
    if bit == 0 {
        return w;
    }
    let i = 2 * w;
    list[i] = end;
    list[i + 1] = tag;
    w + 1
}

// Writes a record for each bit of hits, the lowest first, from record w on. Gives the number of records then.
fn put(list: &mut [u32], from: usize, end: u32, hits: u16) -> usize
    requires { 2 * (from + length (ones_of 0 16 hits)) ≤ length list.old }
    ensures { (result ≡ from + length (ones_of 0 16 hits))
        × (list.new ≡ sets list.old (2 * from) (flat (occur_at end (ones_of 0 16 hits)))) }
{
    let mut w = from;
    let mut rest = hits;
    for tag in 0..16 {
        w = put_bit(list, w, end, tag, rest % 2);
        rest /= 2;
    }
    w
}

// Gives the number of records then, or nothing where they find no room.
pub fn put_all(list: &mut [u32], w: usize, end: u32, hits: u16) -> Option<usize>
    requires { 2 * w ≤ length list.old }
    ensures { (result ≡ emit_of list.old w (ones_of 0 16 hits)) × (list.new ≡ emitted list.old w end (ones_of 0 16 hits)) }
{
    if hits == 0 {
        return Some(w);
    }
    let count = hits.count_ones() as usize;
    if list.len() / 2 - w < count {
        return None;
    }
    Some(put(list, w, end, hits))
}
