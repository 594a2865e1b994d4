//! The registers of a thread's row, and the numbers that `v_end` holds.

/// The clock, as of the thread's last section.
pub const CLOCK: u32 = 64;
/// The last logged value.
pub const LOGGED: u32 = 65;
/// The bound, where `v_bounded` is 1.
pub const BOUND: u32 = 66;
/// From here on the rates of the variables that evolve.
pub const RATES: u32 = 128;
/// From here on the values that branches send.
pub const VALUES: u32 = 192;
/// From here on their slopes.
pub const SLOPES: u32 = 256;
/// From here on registers are scratch.
pub const SCRATCH: u32 = 320;

/// The process waits for others, or for time to pass.
pub const ENDS_WAITING: u32 = 0;
/// The process has ended.
pub const ENDS_ENDED: u32 = 1;
/// A value was logged.
pub const ENDS_LOGGED: u32 = 2;
/// A working value of the next step doesn't fit.
pub const ENDS_UNFIT: u32 = 3;
/// No further step is allowed.
pub const ENDS_SPENT: u32 = 4;
/// There is no end yet.
pub const GOES_ON: u32 = 5;
