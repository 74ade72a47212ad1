// Gaps between times. A gap that would be negative is 0, so that no words make it wrap.
ghost use Rattle.std.specs.Prelude.{◌≡◌, ◌+◌, ◌-◌, ◌≤◌, ◌<◌, ◌^◌, leb};
ghost use Rattle.mtl.specs.Satisfaction.{within as within_spec};
ghost use Rattle.bits.specs.Packed.{number, Packed};
ghost use Rattle.trace.specs.Format.{record_count, time_at};
ghost use Rattle.blocks.specs.Near.{close_after, near_after};

// low ≤ gap ≤ high. A gap to a 32-bit time never lies above the high that means no upper end.
pub fn within(low: u64, high: u64, earlier: u64, later: u64) -> bool
    requires { later < 2 ^ 32 }
    ensures { result ≡ within_spec low high earlier later }
{
    let gap = later.saturating_sub(earlier);
    (low <= gap) & (gap <= high)
}

// 1 where the later of two times lies no farther than `far` behind the earlier, else 0.
fn close_bit(far: u64, earlier: u64, later: u64) -> u64
    requires { (far < 2 ^ 32) × (earlier < 2 ^ 32) }
    ensures { (result ≡ number (leb (later - earlier) far)) × (result ≤ 1) }
{
    bits::flag(later <= earlier + far)
}

// Behind which of up to eight positions from `from` on the next one lies no farther than `far`, as a word of answers, from the last
// one down.
fn close_group(far: u64, window: &[u8], from: usize, n: usize) -> u64
    requires { (far < 2 ^ 32) × (from + n < record_count window.now) × (n ≤ 8) }
    ensures { (result < 2 ^ n) × Packed (close_after far (time_at window.now)) from n result }
{
    let mut answers: u64 = 0;
    for i in (0..n).rev() {
        let earlier = trace::time(window, from + i);
        let later = trace::time(window, from + i + 1);
        answers = answers * 2 + close_bit(far, earlier, later);
    }
    answers
}

// The same of a window's first n positions. Eight at a time, since a group of known size is compiled without a loop. No 32-bit time lies
// farther than the largest of them, so that no time is read then.
fn close(far: u64, window: &[u8], n: usize) -> u64
    requires { (n < record_count window.now) × (n ≤ 64) }
    ensures { Packed (close_after far (time_at window.now)) 0 n result }
{
    if 4294967295 <= far {
        return !0;
    }
    let mut answers: u64 = 0;
    for group in 0..n / 8 {
        let from = group * 8;
        answers += close_group(far, window, from, 8) << from as u64;
    }
    let rest = n % 8;
    if rest != 0 {
        let from = n - rest;
        answers += close_group(far, window, from, rest) << from as u64;
    }
    answers
}

// Behind which of a window's first n positions the next one lies in the interval: no farther than high, and farther than low - 1.
pub fn near(low: u64, high: u64, window: &[u8], n: usize) -> u64
    requires { (n < record_count window.now) × (n ≤ 64) }
    ensures { Packed (near_after low high (time_at window.now)) 0 n result }
{
    let answers = close(high, window, n);
    if low == 0 {
        return answers;
    }
    answers & !close(low - 1, window, n)
}
