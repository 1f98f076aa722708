// Whether a log is of the images of a call.
ghost use Rattle.std.specs.Prelude.{◌≡◌, ◌<◌, length, slice_get, Some};
ghost use Rattle.sha2.specs.Sha256.{sha256};
ghost use Rattle.log_files.specs.Judging.{disagreement, first_other, Agrees};

use crate::refusal::LogRefusal;
use log_text::Digests;
use sha2::{Digest, Sha256};

/// The SHA-256 digest of a file (FIPS 180-4).
pub fn digest_of(file: &[u8]) -> [u8; 32]
    ensures { result ≡ sha256 file.now }
{
    Sha256::digest(file)
}

// The first image whose digest is another than the log's, of as many digests.
fn compare(given: &Digests, logged: &Digests) -> Result<(), LogRefusal>
    requires { length given.now ≡ length logged.now }
    ensures { Agrees result (first_other 1 given.now logged.now) }
{
    for i in 0..given.len() {
        let digest = given.at(i);
        let kept = logged.at(i);
        if digest != kept {
            return Err(LogRefusal::Digest(i as u32 + 1, digest, kept));
        }
    }
    Ok(())
}

/// Whether the digests of a call's images, in the order of the words, are those that a log has:
/// their number is tested first, and then each. The error is the first difference.
pub fn agree(given: &Digests, logged: &Digests) -> Result<(), LogRefusal>
    ensures { Agrees result (disagreement given.now logged.now) }
{
    if given.len() != logged.len() {
        return Err(LogRefusal::Images(logged.len() as u32, given.len() as u32));
    }
    compare(given, logged)
}
