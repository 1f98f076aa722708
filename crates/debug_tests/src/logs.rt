//! Logs of another run, and of other images.
use crate::calls::{check_changed, check_refused};
use crate::frames::Said;
use crate::one_thread::ENDS;

const MISFITS: &[Said] = &[
    ("c", &["T05thread:p1.1;replaylog:end;"]),
    (
        "!where",
        &[
            "\"round 0 move 0, between rounds\n",
            "\"last: none\n",
            "\"next: none, log entry 0 is signals round 2, asked signals round 1\n",
            "\"log entry 0 of 2\n",
            "OK",
        ],
    ),
];

#[test]
fn a_log_of_another_run_is_shown_as_far_as_it_fits(rt: HostRuntime) {
    check_changed(&rt, rt.alloc(), ENDS, 53, 2, MISFITS);
}

#[test]
fn a_log_of_other_images_is_refused(rt: HostRuntime) {
    let words = ["debug", "--log", "log", "a", "a"];
    check_refused(
        &rt,
        rt.alloc(),
        ENDS,
        &words,
        "dos: log has 1 images, given 2\n",
    );
}
