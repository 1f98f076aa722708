// Where an instruction leads.
ghost use Rattle.std.specs.Prelude.{◌≡◌};
ghost use Rattle.rv_exec.specs.Arrivals.{shortened};

use dos_world::Reason;

/// Where an instruction leads.
#[derive(Clone, Copy)]
pub enum Next {
    /// To the instruction behind it, which has four bytes.
    On,
    /// To the instruction behind it, which has two bytes.
    Short,
    /// To this address.
    To(u32),
    /// Nowhere: it wasn't done, and changed nothing. The reason stands beside it.
    Not,
}

/// The same for an instruction of two bytes.
#[inline(always)]
pub fn behind_short(next: Next) -> Next
    ensures { result ≡ shortened next }
{
    match next {
        Next::On => Next::Short,
        _ => next,
    }
}

/// Nowhere, by the fault of this number.
#[cold]
#[inline(never)]
pub fn fault(why: &mut Reason, number: u8) -> Next
    ensures next { result ≡ Next.Not }
    ensures why { why.new ≡ Reason.Fault number }
{
    *why = Reason::Fault(number);
    Next::Not
}

/// Nowhere, since a service is called.
#[cold]
#[inline(never)]
pub fn service(why: &mut Reason) -> Next
    ensures next { result ≡ Next.Not }
    ensures why { why.new ≡ Reason.Service }
{
    *why = Reason::Service;
    Next::Not
}
