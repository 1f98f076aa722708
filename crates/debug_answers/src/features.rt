// What the server can, and what a person may ask of it.
ghost use Rattle.std.specs.Prelude.{◌≡◌, ◌++◌, [], OnOk, codes, if◌then◌else◌};
ghost use Rattle.debug_session.specs.Where.{console_line, goal_line, goal_form};
ghost use Rattle.debug_session.specs.Pages.{page_form};
ghost use Rattle.debug_session.specs.Answers.{features_text, command_forms};

use crate::texts::{put_text, put_words};
use std::alloc::AllocError;

// that it tells of forks
fn put_forks(out: &mut Vec<u8>, is_told_forks: bool) -> Result<(), AllocError>
    ensures { OnOk result (out.new.items
        ≡ out.old.items ++ (if is_told_forks then codes ";fork-events+" else [])) }
{
    if is_told_forks {
        return put_text(out, ";fork-events+");
    }
    Ok(())
}

/// What the server can, as `qSupported` asks; forks are told to a client that knows them.
pub fn put_features(out: &mut Vec<u8>, is_told_forks: bool) -> Result<(), AllocError>
    ensures { OnOk result (out.new.items ≡ out.old.items ++ features_text is_told_forks) }
{
    put_text(
        out,
        "PacketSize=4000;QStartNoAckMode+;multiprocess+;swbreak+;ReverseStep+;\
        ReverseContinue+;vContSupported+;qXfer:features:read+;qXfer:exec-file:read+;\
        qXfer:threads:read+",
    )?;
    put_forks(out, is_told_forks)
}

/// The line of what a person may ask.
pub fn put_command_forms(out: &mut Vec<u8>) -> Result<(), AllocError>
    ensures { OnOk result (out.new.items ≡ out.old.items ++ console_line command_forms) }
{
    put_text(
        out,
        "where, goto ROUND [MOVE], threads, processes, page ADDRESS [PROCESS], \
        pages [PROCESS], pipes, ends [PROCESS], sleepers, output\n",
    )
}

/// The line of where the next resumption goes. Any numbers.
pub fn put_goal_line(out: &mut Vec<u8>, round: u64, made: u64) -> Result<(), AllocError>
    ensures { OnOk result (out.new.items ≡ out.old.items ++ goal_line round made) }
{
    put_words(out, "the next continue goes to round ", round)?;
    put_words(out, " move ", made)?;
    put_text(out, "\n")
}

/// The line of how a moment to go to is named.
pub fn put_goal_form(out: &mut Vec<u8>) -> Result<(), AllocError>
    ensures { OnOk result (out.new.items ≡ out.old.items ++ goal_form) }
{
    put_text(out, "goto ROUND [MOVE]\n")
}

/// The line of how a page is named.
pub fn put_page_form(out: &mut Vec<u8>) -> Result<(), AllocError>
    ensures { OnOk result (out.new.items ≡ out.old.items ++ page_form) }
{
    put_text(out, "page ADDRESS [PROCESS]\n")
}
