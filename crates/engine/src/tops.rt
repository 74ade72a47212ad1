// Where the formulas of a rule stand.

// A formula's last entry, where its words begin and end, and where its last entry's block holds what was answered and not given yet.
#[derive(Clone, Copy)]
pub struct Top {
    pub entry: usize,
    pub from: usize,
    pub to: usize,
    pub held: usize,
}

// A place of zeros, as each is before it is laid out.
pub const NO_TOP: Top = Top {
    entry: 0,
    from: 0,
    to: 0,
    held: 0,
};
