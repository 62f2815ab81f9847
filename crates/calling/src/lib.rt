// What a replay script runs on, one desk, one set, two tables and one list, and the calls on it; each puts its answer.
#![tactic(auto)]

mod buffers;
mod desk_calls;
mod outside;
mod state;

ghost use Rattle.std.specs.Prelude.{◌≡◌, ◌≤◌, length, replicate};
ghost use Rattle.desk.specs.Layout.{one_bit};
ghost use Rattle.desk.specs.Calls.{new_desk};
ghost use Rattle.script.specs.Calls.{Bounded, meant, call_of};
ghost use Rattle.calling.specs.Calls.{held_by, Did, call_on};

use desk::Desk;
use output::Buffer;
use script::Call;
pub use state::State;

// At first all numbers are 0.
fn zeros<const N: usize>() -> [u16; N]
    ensures { result ≡ replicate N 0 }
{
    [0; N]
}

impl State {
    pub fn new() -> State
        ensures desk { result.desk ≡ new_desk one_bit }
        ensures held { result.held ≡ 0 }
        ensures first { (result.first ≡ replicate 131841 0) × (result.first_lent ≡ 11496) }
        ensures second { (result.second ≡ replicate 16384 0) × (result.second_lent ≡ 11496) }
        ensures out { result.out.used ≡ 0 }
    {
        State {
            desk: Desk::new(),
            set: [0; 4096],
            held: 0,
            first: zeros(),
            first_lent: 11496,
            second: zeros(),
            second_lent: 11496,
            list: [0; 2048],
            out: Buffer {
                bytes: [0; 65536],
                used: 0,
            },
        }
    }

    // Makes the call of line n.
    #[tactic(auto, unfolding(output::specs::Buffer::put_bytes))]
    fn make(&mut self, n: u64, call: Call, bytes: &[u8])
        requires bounded { Bounded call }
        requires read { 20000 ≤ length bytes.now }
        ensures { Did (call_on (held_by self.old) n (meant bytes.now call)) self.old.out (held_by self.new) self.new.out }
    {
        match call {
            Call::PassedOver => {}
            Call::NotACall => self.not_a_call(n),
            Call::Set(k) => self.set_to(&bytes[..k]),
            Call::Lend(lent, table) => self.lend(lent, table),
            Call::Replace => self.replace(),
            Call::Open => self.open(),
            Call::Feed(serial, k) => self.feed(serial, &bytes[..k]),
            Call::Close(serial) => self.close(serial),
            Call::State(serial) => self.tell(serial),
            Call::Take => self.take(),
            Call::Show => self.show(),
            Call::Build(layout) => self.build(layout),
            Call::Read(reading) => self.read(reading, bytes),
            Call::Poke(at, value, table) => self.poke(at, value, table),
            Call::Peek(at, count, table) => self.peek(at, count, table),
        }
    }

    // Makes the call of line n, whatever its bytes; those that the call names are put into the buffer.
    pub fn answer_line(&mut self, n: u64, line: &[u8], bytes: &mut [u8; 20000])
        ensures { Did (call_on (held_by self.old) n (call_of line.now)) self.old.out (held_by self.new) self.new.out }
    {
        let call = script::call_of(line, bytes);
        self.make(n, call, bytes);
    }
}
