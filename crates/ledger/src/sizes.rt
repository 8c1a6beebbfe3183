// Sizes, one name for each; `specs/Sizes.antt` has the same names.

// Devices: 0 up to one less.
pub const DEVICES: usize = 1024;

// Words of the input pool, of the blocking pool, of the fast pool and of the generator.
pub const INPUT_WORDS: usize = 128;

pub const BLOCKING_WORDS: usize = 32;

pub const FAST_WORDS: usize = 4;

pub const GENERATOR_WORDS: usize = 16;

// The size S of the input pool and of the blocking pool, in eighths of a bit.
pub const INPUT_SIZE: u32 = 32768;

pub const BLOCKING_SIZE: u32 = 8192;

// Start bytes of a keeper.
pub const START_BYTES: usize = 48;

// The most bytes of a write, a seed or a read.
pub const LONGEST: usize = 4096;

// Kept events of a device that come before one that earns.
pub const EVENTS_BEFORE: u8 = 3;
