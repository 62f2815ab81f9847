// Records of a reading put behind those that the shared list holds.
ghost use Rattle.std.specs.Prelude.{◌≡◌, ◌-◌, ◌*◌, ◌≤◌, length};
ghost use Rattle.std.proofs.lemmas.List.Edits.{sets};
ghost use Rattle.desk.specs.Shared.{push_all, records_of, paired};
ghost use Rattle.desk.specs.TakeMany.{oldest, without, record_numbers};

use crate::{Edition, Record, Records, Serial, Tag};

// The first n ends and tags of a run, as records of a ticket.
pub fn append(records: &mut Records, serial: Serial, edition: Edition, list: &[u32], n: usize)
    requires { (n ≤ 256 - records.old.count) × (2 * n ≤ length list.now) }
    ensures { records.new ≡ push_all records.old (records_of serial edition (paired n list.now)) }
{
    for j in 0..n {
        let at = (records.first % 256 + records.count % 256) % 256;
        let end = list[2 * j];
        let tag = (list[2 * j + 1] % 256) as u8;
        records.ring[at] = Record {
            serial,
            edition,
            end,
            tag: Tag(tag),
        };
        records.count += 1;
    }
}

// The n oldest records, taken one after another into a list of numbers.
pub fn hand_out(records: &mut Records, list: &mut [u32], n: usize)
    requires { (n ≤ records.old.count) × (4 * n ≤ length list.old) }
    ensures { (records.new ≡ without n records.old) × (list.new ≡ sets list.old 0 (record_numbers (oldest n records.old))) }
{
    for j in 0..n {
        let at = records.first % 256;
        let r = records.ring[at];
        let serial = r.serial;
        let edition = r.edition;
        let tag = r.tag;
        let i = 4 * j;
        list[i] = serial.0;
        list[i + 1] = edition.0;
        list[i + 2] = r.end;
        list[i + 3] = u32::from(tag.0);
        records.first = (at + 1) % 256;
        records.count -= 1;
    }
}
