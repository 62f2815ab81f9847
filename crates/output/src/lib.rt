// What a program writes on standard output, gathered in a buffer and handed to the system when that is full, and at a flush. A write
// that fails loses bytes and stops nothing.
#![tactic(auto)]

ghost use Rattle.std.specs.Prelude.{◌≡◌, ◌∷◌, []};
ghost use Rattle.output.specs.Buffer.{buffer, Puts};
ghost use Rattle.output.specs.Decimal.{decimal_of};

const SIZE: usize = 65536;

// The descriptor of standard output.
const STDOUT: i32 = 1;

// The first `used` bytes wait: all of them where `used` is more than there are. An array and a count, since nothing here takes memory.
#[derive(Drop)]
pub struct Buffer {
    pub bytes: [u8; 65536],
    pub used: usize,
}

// Hands the first `used` bytes to the system, all of them where there are no more.
pub fn flush(bytes: &[u8; 65536], used: usize) {
    io::write_all(STDOUT, &bytes[..used.min(SIZE)]);
}

// One byte more behind the first `used`; how many wait then. The count goes by value: a field would be read and written for each byte.
#[tactic(auto, unfolding(crate::specs::Buffer::put_bytes, crate::specs::Buffer::put_byte, crate::specs::Buffer::put_by))]
pub fn put_byte(bytes: &mut [u8; 65536], used: usize, byte: u8) -> usize
    ensures { Puts (buffer bytes.old used) (byte ∷ []) (buffer bytes.new result) }
{
    if used < SIZE {
        bytes[used] = byte;
        return used + 1;
    }
    flush(bytes, SIZE);
    bytes[0] = byte;
    1
}

impl Buffer {
    // One byte more.
    pub fn put_byte(&mut self, byte: u8)
        ensures { Puts self.old (byte ∷ []) self.new }
    {
        self.used = put_byte(&mut self.bytes, self.used, byte);
    }

    // Bytes as they are.
    pub fn put_words(&mut self, words: &[u8])
        ensures { Puts self.old words.now self.new }
    {
        let mut used = self.used;
        for byte in words {
            used = put_byte(&mut self.bytes, used, *byte);
        }
        self.used = used;
    }

    // The decimal digits of a number.
    #[tactic(auto, using(crate::specs::Laws::Decimal::decimal_digits))]
    pub fn put_number(&mut self, number: u64)
        ensures { Puts self.old (decimal_of number) self.new }
    {
        let mut digits = [0u8; 20];
        let places = io::decimal(number, &mut digits);
        self.put_words(&digits[..places]);
    }

    pub fn put_line_end(&mut self)
        ensures { Puts self.old (10 ∷ []) self.new }
    {
        self.put_byte(b'\n');
    }

    // Hands the bytes that wait to the system; then none waits.
    pub fn flush(&mut self)
        ensures { self.new ≡ buffer self.old.bytes 0 }
    {
        flush(&self.bytes, self.used);
        self.used = 0;
    }
}
