// Whether a saved group is of a log.
ghost use Rattle.std.specs.Prelude.{◌≡◌};
ghost use Rattle.group_text.specs.Records.{group_of_record};
ghost use Rattle.group_files.specs.Judging.{is_of_log};

use group_text::GroupRecord;

/// Whether a group was saved from a replay of the log whose file has this digest (SHA-256), and
/// left some of its exchanges: so many there are, the end among them.
pub fn is_of_log(group: &GroupRecord, digest: &[u8; 32], exchanges: u32) -> bool
    ensures { result ≡ is_of_log (group_of_record group.now) digest.now exchanges }
{
    if group.digest != *digest {
        return false;
    }
    group.used < exchanges
}
