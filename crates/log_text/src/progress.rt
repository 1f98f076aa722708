// How far a log's entries were read.
ghost use Rattle.std.specs.Prelude.{◌≡◌, ◌≤◌, ◌+◌, ◌^◌, None, Some};
ghost use Rattle.log_text.specs.Reading.{nothing_read};
ghost use Rattle.log_text.specs.Rows.{is_next};

/// How many exchanges were read so far, and the round with which a quiet entry would go on with the
/// last entry, where that is a quiet one.
#[derive(Clone, Copy)]
pub(crate) struct Progress {
    pub(crate) held: u32,
    pub(crate) goes_on: Option<u64>,
}

impl Progress {
    // Before the first entry.
    pub(crate) fn new() -> Progress
        ensures { result ≡ nothing_read }
    {
        Progress {
            held: 0,
            goes_on: None,
        }
    }

    // Whether a quiet entry of this round would go on with the last entry.
    pub(crate) fn is_next(self, round: u32) -> bool
        ensures { result ≡ is_next self.goes_on round }
    {
        match self.goes_on {
            Some(next) => next == u64::from(round),
            None => false,
        }
    }

    // After one exchange that stands as an entry of its own.
    pub(crate) fn after_kept(self) -> Progress
        requires { self.held + 1 ≤ 16777216 }
        ensures { result ≡ record { held = self.held + 1; goes_on = None } }
    {
        Progress {
            held: self.held + 1,
            goes_on: None,
        }
    }

    // After a quiet entry.
    pub(crate) fn after_quiet(self, round: u32, count: u32) -> Progress
        requires { self.held + count ≤ 16777216 }
        ensures { result ≡ record { held = self.held + count; goes_on = Some (round + count) } }
    {
        Progress {
            held: self.held + count,
            goes_on: Some(u64::from(round) + u64::from(count)),
        }
    }
}
