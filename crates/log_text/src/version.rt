// Which format a log's text has.
ghost use Rattle.std.specs.Prelude.{◌≡◌};
ghost use Rattle.log_text.specs.LogText.{version_number};
ghost use Rattle.log_text.specs.Ranges.{least_posts};
ghost use Rattle.log_text.specs.Rows.{last_kind};

/// The version of a log's text. They differ in how they spell rounds without a signal.
#[derive(Clone, Copy, Debug, PartialEq, Eq)]
pub enum LogVersion {
    /// An entry for each.
    One,
    /// One entry for each stretch of them.
    Two,
}

impl LogVersion {
    /// What stands in the header.
    pub fn number(self) -> u16
        ensures { result ≡ version_number self }
    {
        match self {
            LogVersion::One => 1,
            LogVersion::Two => 2,
        }
    }

    // The fewest posts that an entry of signals has.
    pub(crate) fn least_posts(self) -> u8
        ensures { result ≡ least_posts self }
    {
        match self {
            LogVersion::One => 0,
            LogVersion::Two => 1,
        }
    }

    // The highest kind of an entry.
    pub(crate) fn last_kind(self) -> u8
        ensures { result ≡ last_kind self }
    {
        match self {
            LogVersion::One => 3,
            LogVersion::Two => 4,
        }
    }
}
