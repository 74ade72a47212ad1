// Bytes copied into a lent buffer.
ghost use Rattle.std.specs.Prelude.{◌≡◌, ◌++◌, ◌+◌, ◌≤◌, length, take, drop};

// Copies bytes into the buffer from `at` on. One by one: of two lent buffers the compiler does not know that they lie apart, and
// `copy_from_slice` then asks C for `memmove`.
pub fn copy(bytes: &[u8], buffer: &mut [u8], at: usize)
    requires { at + length bytes.now ≤ length buffer.old }
    ensures { buffer.new ≡ take at buffer.old ++ (bytes.now ++ drop (at + length bytes.now) buffer.old) }
{
    for i in 0..bytes.len() {
        buffer[at + i] = bytes[i];
    }
}
