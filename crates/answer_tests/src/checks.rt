// What tests compare with. An assertion is a way out, so it stands here, where nothing big lives.
use std::process::Abort;

/// The bytes are those of this text.
pub fn same_text(rt: &impl Abort, seen: &[u8], wanted: &str) {
    assert!(rt; seen == wanted.as_bytes(), "{wanted}");
}

/// The lines are these, each with its end.
pub fn same_lines(rt: &impl Abort, seen: &[Vec<u8>], wanted: &[&str]) {
    assert_eq!(rt; seen.len(), wanted.len());
    for (line, text) in seen.iter().zip(wanted.iter()) {
        same_text(rt, line.as_slice(), *text);
    }
}
