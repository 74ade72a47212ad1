// Numbers in a list of bytes.
ghost use Rattle.std.specs.Prelude.{◌≡◌, ◌<◌};
ghost use Rattle.rule.specs.Bytes.{byte, word32};
ghost use Rattle.rule.specs.Code.{lacks};

// A byte past the end reads as 0, so that every read is safe and every check can be made on any bytes.
pub fn byte_at(s: &[u8], at: usize) -> u8
    ensures { result ≡ byte s.now at }
{
    if at < s.len() { s[at] } else { 0 }
}

pub fn word_at(s: &[u8], at: usize) -> u32
    requires { at < 4096 }
    ensures { result ≡ word32 s.now at }
{
    u32::from(byte_at(s, at)) * 16777216
        + u32::from(byte_at(s, at + 1)) * 65536
        + u32::from(byte_at(s, at + 2)) * 256
        + u32::from(byte_at(s, at + 3))
}

pub fn lacks_mark(s: &[u8], mark: &[u8]) -> bool
    ensures { result ≡ lacks s.now mark.now }
{
    !((byte_at(s, 0) == byte_at(mark, 0))
        & (byte_at(s, 1) == byte_at(mark, 1))
        & (byte_at(s, 2) == byte_at(mark, 2)))
}
