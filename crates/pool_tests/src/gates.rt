// What a gate has seen that holds one worker until others have come.
use loop_packs::Holding;
use std::process::Abort;

/// How many have passed, the numbers that have, and how many misses there were.
pub(crate) fn check_seen(rt: &impl Abort, gate: &Holding, wanted: (u64, u64, u64)) {
    assert_eq!(rt; gate.seen(), wanted);
}

/// Number 0 was held in vain at each try.
pub(crate) fn fail_held(rt: &impl Abort) {
    assert_eq!(rt; "number 0 was held in vain at each try", "");
}
