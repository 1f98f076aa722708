//! A law of the files, as the contract of a function that does nothing.
ghost use Rattle.group_files.specs.Laws.{WrittenGroupsAreTaken};

/// The text of a saved group in a lawful world is a file that is taken for that group.
pub fn written_groups_are_taken()
    ensures { WrittenGroupsAreTaken }
{}
