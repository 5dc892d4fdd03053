// The most bytes that an entry has.
pub const LONGEST: usize = 4096;

// The most entries that a roll has.
pub const MOST: u32 = 4095;

// The floor number of a bottom.
pub const FLOOR: u32 = 0;
