//! What tests compare with. An assertion is a way out, so it stands here, where nothing big lives.
use std::fmt::Debug;
use std::process::Abort;

/// These are the same. A failure tells the case.
pub fn same_at<T: Copy + PartialEq + Debug, C: Copy + Debug>(
    rt: &impl Abort,
    seen: T,
    wanted: T,
    case: C,
) {
    assert_eq!(rt; seen, wanted, "{case:?}");
}
