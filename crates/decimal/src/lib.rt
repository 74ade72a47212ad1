// Bytes, numbers and words written into a lent text, one behind the other.
#![tactic(auto)]

ghost use Rattle.std.specs.Prelude.{◌≡◌, ◌+◌, ◌≤◌, length};
ghost use Rattle.decimal.specs.Text.{decimal};

// A lent buffer that a text is written into, one piece behind the other.
#[derive(Drop)]
pub struct Text<'a> {
    bytes: &'a mut [u8],
    // how many bytes are written
    at: usize,
}

impl<'a> Text<'a> {
    ghost use Rattle.decimal.specs.Written.{Begins, Room, Puts, Cuts};

    pub fn new(bytes: &'a mut [u8]) -> Text<'a>
        ensures { Begins bytes.entry result }
    {
        Text { bytes, at: 0 }
    }

    pub fn len(&self) -> usize
        ensures { result ≡ self.now.at }
    {
        self.at
    }

    pub fn put(&mut self, piece: &[u8])
        requires { Room self.old (length piece.now) }
        ensures { Puts self.old piece.now self.new }
    {
        bits::bytes::copy(piece, self.bytes, self.at);
        self.at += piece.len();
    }

    // A number in decimal.
    #[tactic(auto, using(crate::proofs::Decimals::decimal_of))]
    pub fn put_number(&mut self, n: usize)
        requires { Room self.old (length (decimal n)) }
        ensures { Puts self.old (decimal n) self.new }
    {
        let mut digits = [0u8; 20];
        let count = io::decimal(n as u64, &mut digits);
        self.put(&digits[..count]);
    }

    // Takes out the bytes from `from` up to `to`, and moves those behind them to their place.
    pub fn cut(&mut self, from: usize, to: usize)
        requires { (from ≤ to) × (to ≤ self.old.at) × (self.old.at ≤ length self.old.bytes.now) }
        ensures { Cuts self.old from to self.new }
    {
        self.bytes.copy_within(to..self.at, from);
        self.at -= to - from;
    }
}
