// An entry of a log's text, as it is read.
ghost use Rattle.std.specs.Prelude.{◌≡◌, ◌≤◌};
ghost use Rattle.log_text.specs.Reading.{after_item};
ghost use Rattle.log_text.specs.Views.{item_of, item_ending};

use crate::entry::Entry;
use crate::progress::Progress;
use dos_world::Ending;

/// An entry as it stands in the text: a stretch of rounds without a signal, or one exchange.
#[derive(Drop)]
pub(crate) enum Item<'a> {
    /// So many rounds from this one on.
    Quiet { round: u32, count: u32 },
    /// One exchange.
    Kept(Entry<'a>),
}

impl<'a> Item<'a> {
    /// How the run ended, and after how many rounds, where it is the end.
    pub(crate) fn end(&self) -> Option<(Ending, u32)>
        ensures { result ≡ item_ending (item_of self.now) }
    {
        match self {
            Item::Quiet { .. } => None,
            Item::Kept(entry) => entry.end(),
        }
    }

    /// How far was read with it.
    pub(crate) fn after(&self, progress: Progress) -> Progress
        requires { (after_item progress (item_of self.now)).held ≤ 16777216 }
        ensures { result ≡ after_item progress (item_of self.now) }
    {
        match self {
            Item::Quiet { round, count } => progress.after_quiet(*round, *count),
            Item::Kept(_) => progress.after_kept(),
        }
    }
}
