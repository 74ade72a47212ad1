// The entries of a rule, decoded from its bytes (document 01, "Rule and log as bytes").
ghost use Rattle.std.specs.Prelude.{◌≡◌, ◌≤◌, ◌<◌};
ghost use Rattle.rule.specs.Entries.{version, count, entry_of};
ghost use Rattle.rule.specs.Contract.{filled};

use super::{Entry, bytes};

// "High 4,294,967,295 means no upper end"
pub const UNBOUNDED: u32 = 4294967295;

// What stands behind a rule's last entry.
const BLANK: Entry = Entry {
    kind: 0,
    letter: 0,
    low: 0,
    high: 0,
};

fn entry_at(rule: &[u8], k: usize) -> Entry
    requires { k < 128 }
    ensures { result ≡ entry_of rule.now k }
{
    let at = 8 + k * 10;
    Entry {
        kind: bytes::byte_at(rule, at),
        letter: bytes::byte_at(rule, at + 1),
        low: bytes::word_at(rule, at + 2),
        high: bytes::word_at(rule, at + 6),
    }
}

// The first count entries. Behind the last of them stand blank ones.
pub fn entries_of(rule: &[u8], count: usize) -> [Entry; 128]
    requires { count ≤ 128 }
    ensures { result ≡ filled rule.now count }
{
    let mut entries = [BLANK; 128];
    for k in 0..count {
        entries[k] = entry_at(rule, k);
    }
    entries
}

pub fn version_of(rule: &[u8]) -> usize
    ensures { (result ≡ version rule.now) × (result < 65536) }
{
    usize::from(bytes::byte_at(rule, 3)) * 256 + usize::from(bytes::byte_at(rule, 4))
}

pub fn entry_count(rule: &[u8]) -> usize
    ensures { (result ≡ count rule.now) × (result < 256) }
{
    usize::from(bytes::byte_at(rule, 5))
}
