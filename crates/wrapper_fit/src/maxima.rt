// The widest bus, the most capture cycles, and the most cycles that a module can take (document 01, "The wrapper rule"; document 02,
// item 5).

pub const WIDTH_MAX: u32 = 64;

// As many wrapper chains, and as many widths, have places.
pub const WIDTH_PLACES: usize = WIDTH_MAX as usize;

pub const CAPTURE_MAX: u32 = 4;

pub const MODULE_TIME_MAX: u64 = 37383663779808;
