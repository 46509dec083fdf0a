/// How many bytes are read or appended at a time.
pub(crate) const PIECE: u32 = 65_536;

/// The most bytes of a file.
pub(crate) const MOST_BYTES: u64 = 1 << 50;
