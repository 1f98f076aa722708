// What files were asked. Only clauses read it: it takes no memory, and its calls do nothing.
ghost use Rattle.std.specs.Prelude.{◌≡◌, List, [], ◌∷◌, ◌++◌};
ghost use Rattle.std.specs.Borrow.{ftrue};
ghost use Rattle.dos_io.specs.FileCalls.{FileCall, getting, setting};

use std::marker::{Model, PhantomData};

/// The calls of files so far, in order.
#[derive(Drop)]
pub(crate) struct AskedFiles {
    marker: PhantomData<u8>,
    ghost calls: { List FileCall },
}

impl Model for AskedFiles {
    ghost also_owns = { λ _. ftrue };
}

impl AskedFiles {
    /// No call yet.
    pub(crate) fn new() -> AskedFiles
        ensures { result.calls ≡ [] }
    {
        AskedFiles {
            marker: PhantomData,
        }
    }

    /// A call for the content of a name.
    pub(crate) fn get(&mut self, _name: &[u8])
        ensures { self.new.calls ≡ self.old.calls ++ getting _name.now ∷ [] }
    {}

    /// A call to give a name its content.
    pub(crate) fn set(&mut self, _name: &[u8])
        ensures { self.new.calls ≡ self.old.calls ++ setting _name.now ∷ [] }
    {}
}
