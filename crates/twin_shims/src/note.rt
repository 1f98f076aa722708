// What goes from a leader to a follower.
ghost use Rattle.std.specs.Prelude.{◌≡◌};
ghost use Rattle.twin_shims.specs.Notes.{closes};

use dos_io::Exchange;

/// A note of a leader to its follower.
#[derive(Drop)]
pub enum Note {
    /// The leader was told this.
    Told(Exchange),
    /// The leader's run has stopped; no more notes come.
    Stopped,
}

impl Note {
    /// No note comes behind it.
    pub(crate) fn closes(&self) -> bool
        ensures { result ≡ closes self.now }
    {
        match self {
            Note::Told(exchange) => match exchange {
                Exchange::End { .. } => true,
                Exchange::Signals { .. } => false,
                Exchange::Input { .. } => false,
                Exchange::Clock { .. } => false,
            },
            Note::Stopped => true,
        }
    }
}
