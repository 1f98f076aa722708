// Who answers packets.
ghost use Rattle.std.specs.Prelude.{◌≡◌, ◌≤◌, length, map, IfOk};
ghost use Rattle.debug_session.specs.Answers.{answer_to};
ghost use Rattle.debug_session.specs.Connections.{reply_text};
ghost use Rattle.debug_connection.specs.Keeping.{texts_of};

use std::alloc::AllocError;

/// A session that is asked by packets.
pub trait Answering {
    ghost use Rattle.debug_session.specs.Sessions.{Session};

    /// The sessions that it may be.
    ghost shows: { Self → Session → Type 0 };

    /// The answers to the packet of this text, in order, each as it stands between `$` and `#`.
    /// Behind an `Err`, which is want of memory, nothing more is said of it.
    fn answer(&mut self, text: &[u8]) -> Result<Vec<Vec<u8>>, AllocError>
        requires { length text.now ≤ 16384 }
        ensures { (s : Session) → shows self.old s → IfOk result (λ replies.
            shows self.new (answer_to s text.now).0
            × (texts_of replies.items ≡ map reply_text (answer_to s text.now).1)) };
}
