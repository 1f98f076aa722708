//! Laws of the text, as contracts of functions that do nothing.
ghost use Rattle.group_text.specs.Reading.{GroupsAreSpelled};

/// A saved group that is read was written so, and is in its ranges; and what was written is read
/// again.
pub fn groups_are_spelled()
    ensures { GroupsAreSpelled }
{}
