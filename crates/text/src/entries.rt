// The buffer in which a rule grows while its text is read.
ghost use Rattle.std.specs.Prelude.{[]};
ghost use Rattle.text.specs.Reader.{Contains, Puts};

use rule::Entry;

// the most entries of a rule
pub const MOST: usize = 128;

// The bytes of a rule whose count is still 0, and the number of its entries: 129 stands for more than 128, which are not written.
#[derive(Clone, Copy)]
pub struct Buffer {
    pub bytes: [u8; 1288],
    pub count: usize,
}

impl Buffer {
    #[tactic(auto, unfolding(rule::specs::Encoding::body))]
    pub fn new() -> Buffer
        ensures { Contains result [] }
    {
        let mut bytes = [0u8; 1288];
        bytes[0] = b'K';
        bytes[1] = b'R';
        bytes[2] = b'L';
        bytes[4] = 1;
        Buffer { bytes, count: 0 }
    }

    // Writes an entry behind the others.
    pub fn put(&mut self, e: Entry)
        ensures { Puts self.old e self.new }
    {
        if self.count >= MOST {
            self.count = MOST + 1;
            return;
        }
        let at = 8 + self.count * 10;
        self.bytes[at] = e.kind;
        self.bytes[at + 1] = e.letter;
        self.bytes[at + 2..at + 6].copy_from_slice(&e.low.to_be_bytes());
        self.bytes[at + 6..at + 10].copy_from_slice(&e.high.to_be_bytes());
        self.count += 1;
    }
}
