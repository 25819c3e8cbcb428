// The ranges of document 01, "Units and ranges". Both ends are inside.

// Tenths of an arc second.
pub const LEAST_ANGLE: u32 = 1;

pub const MOST_ANGLE: u32 = 6_479_999;

// Log-sine plus 10, in units of the seventh decimal.
pub const LEAST_LOG_SINE: u32 = 1;

pub const MOST_LOG_SINE: u32 = 100_000_000;

// Sine difference for 1″, in hundredths of the sixth decimal.
pub const LEAST_DIFFERENCE: i32 = -9_999;

pub const MOST_DIFFERENCE: i32 = 9_999;

// L in tenths, e in seconds; either may be 0.
pub const MOST_LIMIT: u32 = 600;

pub const MOST_TOLERANCE: u32 = 50;

// How often an angle was observed: document 02, M-106.
pub const LEAST_ROUNDS: u8 = 1;

pub const MOST_ROUNDS: u8 = 255;
