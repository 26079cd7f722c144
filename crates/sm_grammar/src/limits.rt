//! How long a line may be, and how much one line may ask for.

/// Bytes of a line before its end.
pub const LONGEST_LINE: usize = 1024;

/// Writes of one `client write`.
pub const MOST_WRITES: u32 = 4096;
