// A rule that is decoded.
ghost use Rattle.std.specs.Prelude.{◌≤◌};

use super::Entry;

// A rule whose header is accepted, and its entries, each decoded once. Behind the last of them stand blank ones.
#[derive(Clone, Copy)]
pub struct Rule {
    pub version: usize,
    pub count: usize,
    pub entries: [Entry; 128],
    pub ghost few: { count ≤ 128 },
}
