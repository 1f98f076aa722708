// Why a log isn't replayed.

use log_text::LogError;

/// Why a log isn't replayed with the images of a call.
#[derive(Clone, Copy, PartialEq, Eq)]
pub enum LogRefusal {
    /// Its file is longer than 67108864 bytes (64 MiB).
    TooLong,
    /// Its file is no log, for this.
    Refused(LogError),
    /// It is of the first number of images, and the call has the second.
    Images(u32, u32),
    /// The file of this image, counted from 1, has the first digest, and the log the second.
    Digest(u32, [u8; 32], [u8; 32]),
}

/// Why there is no log of a file.
#[derive(Clone, Copy)]
pub enum LoadError {
    /// The file is refused.
    Log(LogRefusal),
    /// It can't be read.
    Fault,
    /// Memory ran out.
    Memory,
}
