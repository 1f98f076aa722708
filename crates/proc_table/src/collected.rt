// What a wait for children comes to.

/// What a wait for children comes to.
#[derive(Clone, Copy, Debug, PartialEq, Eq)]
pub enum Collected {
    /// The lowest child that has ended, and its status.
    Got { pid: u32, status: u8 },
    /// There is a child, and none has ended.
    Wait,
    /// There is no child.
    NoChild,
}
