//! Why a session ends.

/// Why a session wasn't served to the end of its input.
#[derive(Clone, Copy, Debug, PartialEq, Eq)]
pub enum DebugStop {
    /// The images need more frames than there are.
    NoRoom {
        /// How many they need.
        needed: u64,
        /// How many there are.
        frames: u32,
    },
    /// A read of the input failed.
    HostFault,
    /// A put failed.
    SinkFault,
    /// Want of memory.
    Memory,
}
