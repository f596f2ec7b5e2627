// The limits that a network is held to.

pub const MOST_POINTS: usize = 48;

// Of a matrix.
pub const MOST_ENTRIES: usize = MOST_POINTS * MOST_POINTS;

pub const MOST_CONDITIONS: usize = 64;

// Of conditions with two or more windows.
pub const MOST_CHOICES: usize = 6;

// Of one condition.
pub const MOST_WINDOWS: usize = 4;

// The greatest size of a window's end: 2^24.
pub const LARGEST_END: u64 = 1 << 24;
