// What a call knows of its log, and behind that a mark for each block of 256 records, set where the block has a service record. Windows where
// no block is marked are opened without a look at their records.
ghost use Rattle.std.specs.Prelude.{◌≡◌, true, ◌+◌, ◌-◌, ◌≤◌, ◌<◌, min, length};
ghost use Rattle.trace.specs.Format.{record_count};
ghost use Rattle.trace.specs.Positions.{positions, before};
ghost use Rattle.window.specs.View.{block_marked, BlockMarks, MarkedToo, ViewOf};

// The record with which the slice begins, how many positions the log has, whether service records are passed over in the slice, whether the
// log is closed, and the marks.
#[derive(Clone, Copy)]
pub struct View {
    pub first: u64,
    pub total: u64,
    pub skips: bool,
    pub closed: bool,
    pub marks: [u64; 62],
}

impl View {
    // The view of a slice that begins with record `first`, before which stand so many positions. Service records are passed over only where
    // one lies in the slice.
    pub fn of(records: &[u8], first: u64, earlier: u64, skips: bool, closed: bool) -> View
        requires { earlier ≤ 1000000 }
        ensures { ViewOf first earlier skips closed records.now result }
    {
        let mut marks = [0u64; 62];
        let positions = mark_positions(records, skips, &mut marks);
        View {
            first,
            total: earlier + positions,
            skips: positions < trace::count(records) as u64,
            closed,
            marks,
        }
    }

    // Whether a block is marked. A block behind the last mark counts as marked; no log has so many records.
    pub fn is_marked(&self, block: usize) -> bool
        ensures { result ≡ block_marked self.now.marks block }
    {
        if block < 3968 {
            bits::test(self.marks[block / 64], (block % 64) as u64)
        } else {
            true
        }
    }
}

// Marks a block, if it has to be, beside those that are marked.
fn mark_block(marks: &mut [u64; 62], block: usize, needed: bool)
    requires { length marks.old ≡ 62 }
    ensures { MarkedToo marks.old block needed marks.new }
{
    if needed & (block < 3968) {
        marks[block / 64] |= 1 << (block % 64) as u64;
    }
}

// Marks the blocks that have service records, and gives how many of all records are positions.
fn mark_blocks(records: &[u8], marks: &mut [u64; 62]) -> usize
    requires { length marks.old ≡ 62 }
    ensures { (result ≡ positions records.now (record_count records.now)) × (length marks.new ≡ 62) × BlockMarks marks.new records.now }
{
    let end = trace::count(records);
    let mut found: usize = 0;
    for block in 0..end.div_ceil(256) {
        let from = block * 256;
        let n = (end - from).min(256);
        let here = super::count_many(records, from, n);
        mark_block(marks, block, here < n);
        found += here;
    }
    found
}

// The same, where the log's version has service records; else all records are positions, and nothing is marked.
fn mark_positions(records: &[u8], skips: bool, marks: &mut [u64; 62]) -> u64
    requires { length marks.old ≡ 62 }
    ensures { (result ≡ before skips records.now (record_count records.now)) × (length marks.new ≡ 62) × (skips ≡ true → BlockMarks marks.new records.now) }
{
    if skips {
        return mark_blocks(records, marks) as u64;
    }
    trace::count(records) as u64
}
