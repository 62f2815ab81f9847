// What the walk over a block noted, written as records: byte by byte, up to the end or to the first byte whose records find no room.
ghost use Rattle.std.specs.Prelude.{◌≡◌, false, ◌+◌, ◌*◌, ◌<◌, ◌≤◌, ◌^◌, length, take};
ghost use Rattle.blocks.specs.Noting.{tag_rows};
ghost use Rattle.blocks.specs.Parts.{clean};
ghost use Rattle.reading.specs.Noted.{WroteTo};

use crate::records::put_all;

// The bytes whose records are written, and how many records there are then.
#[derive(Clone, Copy)]
pub struct Wrote {
    pub at: usize,
    pub records: usize,
}

// The records of the bytes up to end, behind the first so many.
fn write_rows(hits: &[u16; 256], end: usize, count: u32, list: &mut [u32], from: usize) -> Wrote
    requires hits_len { (length hits.now ≡ 256) × (end ≤ 256) }
    requires from_in_bounds { (2 * from ≤ length list.old) × (count + end < 2 ^ 32) }
    ensures { WroteTo (tag_rows (take end hits.now)) count list.old list.new from result }
{
    let mut w = from;
    for i in 0..end {
        let Some(x) = put_all(list, w, count + (i as u32) + 1, hits[i]) else {
            return Wrote { at: i, records: w };
        };
        w = x;
    }
    Wrote {
        at: end,
        records: w,
    }
}

// The same, if something was noted; and then nothing is noted any more.
pub fn write_noted(
    loud: bool,
    hits: &mut [u16; 256],
    end: usize,
    count: u32,
    list: &mut [u32],
    from: usize,
) -> Wrote
    requires hits_len { (length hits.old ≡ 256) × ((end ≤ 256) × (loud ≡ false → hits.old ≡ clean)) }
    requires from_in_bounds { (2 * from ≤ length list.old) × (count + end < 2 ^ 32) }
    ensures { (WroteTo (tag_rows (take end hits.old)) count list.old list.new from result) × (hits.new ≡ clean) }
{
    if loud {
        let r = write_rows(hits, end, count, list, from);
        *hits = [0; 256];
        return r;
    }
    Wrote {
        at: end,
        records: from,
    }
}
