//! Each field past an end of its range.
use crate::reading::is_spelled;
use crate::texts::worked;
use group_text::GroupRefusal;
use std::alloc::Global;
use std::process::Abort;

/// What stands at a place of `WORKED` in place of its bytes, and the refusal.
const REFUSED: [(usize, &[u8], GroupRefusal); 50] = [
    (0, &[0x45], GroupRefusal::Magic),
    (3, &[0x54], GroupRefusal::Magic),
    (4, &[0, 0], GroupRefusal::Version(0)),
    (4, &[2, 1], GroupRefusal::Version(258)),
    (42, &[15, 0, 0, 0], GroupRefusal::Field(42)),
    (42, &[1, 0, 1, 0], GroupRefusal::Field(42)),
    (46, &[0, 0, 0, 0], GroupRefusal::Field(46)),
    (46, &[0x41, 0x42, 0x0f, 0], GroupRefusal::Field(46)),
    (50, &[15, 0, 0, 0], GroupRefusal::Field(50)),
    (50, &[1, 0x40, 0, 0], GroupRefusal::Field(50)),
    (54, &[0xa1, 0x86, 1, 0], GroupRefusal::Field(54)),
    (58, &[0, 0, 0, 0], GroupRefusal::Field(58)),
    (58, &[0, 0, 1, 0], GroupRefusal::Field(58)),
    (62, &[0, 0, 0, 0], GroupRefusal::Field(62)),
    (62, &[0, 0, 1, 0], GroupRefusal::Field(62)),
    (66, &[3, 0, 0, 0], GroupRefusal::Field(66)),
    (70, &[3], GroupRefusal::Field(70)),
    (71, &[1], GroupRefusal::Field(71)),
    (72, &[3, 0, 0, 0], GroupRefusal::Field(72)),
    (76, &[0, 0, 0, 0xf0], GroupRefusal::Field(76)),
    (196, &[6], GroupRefusal::Field(196)),
    (197, &[1], GroupRefusal::Field(197)),
    (203, &[64], GroupRefusal::Field(203)),
    (260, &[17, 0, 0, 0], GroupRefusal::Field(260)),
    (264, &[0, 0, 0, 0], GroupRefusal::Field(264)),
    (268, &[16, 0, 0, 0], GroupRefusal::Field(268)),
    (272, &[4], GroupRefusal::Field(272)),
    (273, &[2], GroupRefusal::Field(273)),
    (274, &[0x10, 0, 0, 0], GroupRefusal::Field(274)),
    (274, &[0, 0, 0x0f, 0], GroupRefusal::Field(274)),
    (288, &[3], GroupRefusal::Field(288)),
    (290, &[65], GroupRefusal::Field(290)),
    (291, &[0, 0, 0, 0], GroupRefusal::Field(291)),
    (291, &[3, 0, 0, 0], GroupRefusal::Field(291)),
    (295, &[3, 0, 0, 0], GroupRefusal::Field(295)),
    (299, &[3], GroupRefusal::Field(299)),
    (428, &[2], GroupRefusal::Field(428)),
    (428, &[0], GroupRefusal::Field(429)),
    (437, &[1, 0, 0, 0], GroupRefusal::Field(437)),
    (441, &[0, 2, 0, 0], GroupRefusal::Field(441)),
    (445, &[5], GroupRefusal::Field(445)),
    (579, &[1, 0, 0, 0], GroupRefusal::Field(579)),
    (583, &[1, 0x10], GroupRefusal::Field(583)),
    (715, &[3, 0, 0, 0], GroupRefusal::Field(715)),
    (719, &[16, 0, 0, 0], GroupRefusal::Field(719)),
    (723, &[2, 0], GroupRefusal::Field(723)),
    (723, &[0, 0x10], GroupRefusal::Field(723)),
    (725, &[3], GroupRefusal::Field(725)),
    (726, &[3, 0, 0, 0], GroupRefusal::Field(726)),
    (4827, &[1, 0, 0, 0], GroupRefusal::Field(4827)),
];

/// `WORKED` with other bytes from a place on.
pub fn with_others(rt: &impl Abort, alloc: Global, place: usize, bytes: &[u8]) -> Vec<u8> {
    let mut text = worked(rt, alloc).text;
    for (to, from) in text.iter_mut().skip(place).zip(bytes) {
        *to = *from;
    }
    text
}

#[test]
fn fields_past_their_ranges_are_refused(rt: HostRuntime) {
    for (place, bytes, refusal) in REFUSED {
        let text = with_others(&rt, rt.alloc(), place, bytes);
        is_spelled(&rt, rt.alloc(), &text, Some(refusal));
    }
}
