//! Laws of saved groups, as contracts of functions that do nothing.
ghost use Rattle.lawful_groups.specs.Lawfulness.{LawfulByParts, LawfulWorldsPass};
ghost use Rattle.lawful_groups.specs.Recording.{RecordsFit, WorldsComeBack};

/// A saved group whose fields are in their ranges is in a lawful world exactly where its parts
/// agree.
pub fn lawful_by_parts()
    ensures { LawfulByParts }
{}

/// A world is lawful exactly where it passes the test that can be computed.
pub fn lawful_worlds_pass()
    ensures { LawfulWorldsPass }
{}

/// What is saved of a lawful world has a text, where the run's own numbers are in their ranges.
pub fn records_fit()
    ensures { RecordsFit }
{}

/// A lawful world of which nothing was sent is what its saved group stands for.
pub fn worlds_come_back()
    ensures { WorldsComeBack }
{}
