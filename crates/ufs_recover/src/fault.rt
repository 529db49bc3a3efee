/// Why a disk isn't formatted. Formatting takes no memory.
#[derive(Clone, Copy, Debug, PartialEq, Eq)]
pub enum FormatFault {
    /// The disk has fewer than 8 sectors for each block.
    TooSmall,
    /// A call of the disk failed; the disk's count of faults after it.
    Device { fault: u64 },
}
