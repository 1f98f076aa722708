// One instruction of a page, as it is known.
ghost use Rattle.std.specs.Prelude.{◌≡◌, ◌≢◌, ◌<◌, ◌⊎◌, true};
ghost use Rattle.rv_form.specs.Forms.{IsFormOf};
ghost use Rattle.code_pages.specs.declared.kind.Kind.TheVariants.{End, Other};
ghost use Rattle.code_pages.specs.Codes.{code_size};
ghost use Rattle.code_pages.specs.Kinds.{IsOfKind, writes};

use crate::Kind;
use crate::kind::kind_of;
use rv_form::{Form, form_of};

/// An instruction by its form, with its offset in its page, how many lines behind it follow it
/// until one at which a run ends, its kind, whether its comparison is turned, and its size in
/// bytes. A line of size 0 is stale: the code there has changed.
#[derive(Clone, Copy)]
pub struct Line {
    pub form: Form,
    pub offset: u16,
    pub run: u16,
    pub kind: Kind,
    pub turned: bool,
    pub size: u8,
    ghost is: { IsOfKind kind turned form size },
    ghost sized: { size ≡ 0 → kind ≡ End },
    ghost nonzero: { writes kind ≡ true → form.rd ≢ 0 },
}

/// A code's size in bytes.
fn code_size(code: u32) -> u8
    ensures { result ≡ code_size code }
{
    if code % 4 == 3 { 4 } else { 2 }
}

/// The kind of an instruction that is of this kind by its operation and writes this register.
fn kind_for(kind: Kind, rd: u8) -> Kind
    ensures is { (result ≡ kind) ⊎ ((writes kind ≡ true) × (result ≡ Other)) }
    ensures nonzero { writes result ≡ true → rd ≢ 0 }
{
    if rd == 0 && kind.writes() {
        return Kind::Other;
    }
    kind
}

impl Line {
    /// A line at which a run ends, with no instruction.
    pub(crate) fn end(offset: u16) -> Line
        ensures kind { result.kind ≡ End }
        ensures offset { result.offset ≡ offset }
        ensures run { result.run ≡ 0 }
        ensures size { 0 < result.size }
    {
        Line {
            form: Form::unknown(),
            offset,
            run: 0,
            kind: Kind::End,
            turned: false,
            size: 2,
        }
    }

    /// The line of the code at an offset.
    pub(crate) fn of(code: u32, offset: u16) -> Line
        ensures form { IsFormOf code result.form }
        ensures size { result.size ≡ code_size code }
        ensures offset { result.offset ≡ offset }
        ensures run { result.run ≡ 0 }
    {
        let form = form_of(code);
        let (kind, turned) = kind_of(form.op);
        let kind = kind_for(kind, form.rd);
        Line {
            form,
            offset,
            run: 0,
            kind,
            turned,
            size: code_size(code),
        }
    }

    /// The line of a code that has changed.
    pub(crate) fn stale(self) -> Line
        ensures kind { result.kind ≡ End }
        ensures size { result.size ≡ 0 }
        ensures offset { result.offset ≡ self.offset }
        ensures run { result.run ≡ self.run }
    {
        Line {
            form: Form::unknown(),
            offset: self.offset,
            run: self.run,
            kind: Kind::End,
            turned: false,
            size: 0,
        }
    }

    /// The line with so many behind it.
    pub(crate) fn with_run(self, run: u16) -> Line
        ensures run { result.run ≡ run }
        ensures form { result.form ≡ self.form }
        ensures offset { result.offset ≡ self.offset }
        ensures kind { result.kind ≡ self.kind }
        ensures size { result.size ≡ self.size }
    {
        Line {
            form: self.form,
            offset: self.offset,
            run,
            kind: self.kind,
            turned: self.turned,
            size: self.size,
        }
    }
}
