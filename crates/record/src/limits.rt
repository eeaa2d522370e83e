// The limits of a record's counts.

pub const MAX_MARKS: u32 = 49_152;

pub const MAX_CODES: u32 = 32_768;
