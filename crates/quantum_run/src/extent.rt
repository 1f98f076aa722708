// How much of a run of lines is followed.
ghost use Rattle.std.specs.Prelude.{◌≡◌, Bool};

/// How much of a run of lines is followed. A type, so that the loop is compiled once for each, with
/// all that it calls: what is called from two places isn't inlined.
pub trait Extent {
    ghost whole: { Bool };

    /// Whether it is all of it.
    fn is_whole() -> bool
        ensures { result ≡ whole };
}

/// All of it: the budget is known to be more than the lines that follow.
pub struct Whole;

impl Extent for Whole {
    ghost use Rattle.std.specs.Prelude.{true};

    ghost whole = { true };

    #[inline(always)]
    fn is_whole() -> bool {
        true
    }
}

/// The same in a run that stops at addresses.
pub struct Between;

impl Extent for Between {
    ghost use Rattle.std.specs.Prelude.{true};

    ghost whole = { true };

    #[inline(always)]
    fn is_whole() -> bool {
        true
    }
}

/// As much as the budget pays.
pub struct Part;

impl Extent for Part {
    ghost use Rattle.std.specs.Prelude.{false};

    ghost whole = { false };

    #[inline(always)]
    fn is_whole() -> bool {
        false
    }
}
