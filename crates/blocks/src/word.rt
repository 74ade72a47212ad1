// The words of a block by name, as specs/Block.antt names them. docs/CHECKPOINT.md says what each holds.
pub const TAKEN: usize = 0;

pub const LEFT_COUNT: usize = 1;

pub const LEFT_BITS: usize = 2;

pub const RIGHT_COUNT: usize = 3;

pub const RIGHT_BITS: usize = 4;

pub const ANSWERED: usize = 5;

pub const LAST_LEFT: usize = 6;

pub const LAST_RIGHT: usize = 7;

pub const LAST_TIME: usize = 8;

pub const RING_START: usize = 9;

pub const RING_COUNT: usize = 10;

pub const HEAD: usize = 11;

pub const HELD_COUNT: usize = 12;

pub const HELD_BITS: usize = 13;

pub const COPY_HEAD: usize = 14;

pub const COPY_ENDS: usize = 15;

pub const WAITING_HEAD: usize = 16;
