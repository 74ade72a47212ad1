// The checkpoint's own words by name, as specs/Checkpoint.antt names them. docs/CHECKPOINT.md says what each holds.
pub const FORMAT: usize = 0;

pub const GIVEN: usize = 1;

pub const SEEN: usize = 2;

pub const LAST: usize = 3;

pub const COPY_START: usize = 4;

pub const CLOSED_WITH: usize = 5;

pub const LOG_KIND: usize = 6;

pub const WANTED: usize = 7;

pub const NO_COUNT: usize = 8;
