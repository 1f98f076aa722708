//! The numbers of errors, chosen after Linux's: a service that refuses answers minus one of them.
//! In contracts they are the numbers of `specs/Errors`.

/// No such process.
pub const ESRCH: u8 = 3;

/// A signal came before the call was done.
pub const EINTR: u8 = 4;

/// No such descriptor, or none for this use.
pub const EBADF: u8 = 9;

/// No such child.
pub const ECHILD: u8 = 10;

/// No more for now, or another value than was expected.
pub const EAGAIN: u8 = 11;

/// Too few free frames.
pub const ENOMEM: u8 = 12;

/// An address that the caller may not use so.
pub const EFAULT: u8 = 14;

/// An argument out of range.
pub const EINVAL: u8 = 22;

/// No free descriptor.
pub const EMFILE: u8 = 24;

/// A pipe that nobody reads.
pub const EPIPE: u8 = 32;

/// No such service.
pub const ENOSYS: u8 = 38;
