// The numbers of clients, of their descriptors and of their requests.

/// The most clients of a session.
pub const MAX_CLIENTS: usize = 16;

/// The most requests of a client.
pub const MAX_REQUESTS: usize = 65_536;

/// The lowest descriptor that an `open` gives out.
pub const FIRST_FD: u32 = 3;

/// The highest descriptor that an `open` gives out.
pub const LAST_FD: u32 = 66;

/// The most descriptors that a client has open.
pub const MAX_FDS: usize = 64;

const _: () = prove!(LAST_FD as usize == FIRST_FD as usize + MAX_FDS - 1);
