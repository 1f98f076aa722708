// What a host is asked.

/// A question to a host.
#[derive(Clone, Copy)]
pub enum HostQuestion {
    /// The next input.
    Bytes {
        /// How many bytes at most.
        most: usize,
    },
    /// The next reading of its clock.
    Reading,
}
