// The pools of blocks of a session.

/// The pool of the server: the name of its part is `File` of this number, which no file has.
pub const PRIMARY_POOL: u32 = u32::MAX;
