//! A value that is lent to threads, and comes back to its owner when all loans have.
//!
//! A `Lender` owns the value's memory and counts the loans that are out; a `Loan` reads the value,
//! wherever it goes. Whoever has the lender and no loan out has the value again, at once: nothing
//! is tried and nothing is waited for.
#![tactic(auto)]

ghost use Rattle.std.specs.Prelude.{◌≡◌, ℕ, ◌+◌, ◌-◌, ◌^◌, ◌<◌};
ghost use Rattle.counted_loans.specs.Lent.{lent_owns, loan_owns, loan_shares};

use std::alloc::Allocator;
use std::marker::Model;

/// The right to read a value that was lent.
#[derive(Drop)]
pub struct Loan<T> {
    at: *const T,
    pub ghost value: { T },
    pub ghost term: { ℕ },
}

impl<T> Model for Loan<T> {
    ghost also_owns = { λ l. loan_owns T.row l.at l.value l.term };

    ghost also_shares = { λ l _ κ. loan_shares T.row l.at l.value l.term κ };
}

/// The owner of a value of which so many loans are out. All loans of one lender have its term.
pub struct Lender<T, A: Allocator> {
    at: *mut T,
    alloc: A,
    pub ghost value: { T },
    pub ghost term: { ℕ },
    pub ghost out: { ℕ },
}

impl<T, A: Allocator> Model for Lender<T, A> {
    ghost also_owns = { λ l. lent_owns (A.dealloc_token l.alloc) T.row l.at l.value l.term l.out };
}

impl<T> Loan<T> {
    /// The value.
    pub fn get(&self) -> &T
        ensures { result.now ≡ self.now.value }
    {
        unsafe { &*self.at }
    }
}

impl<T, A: Allocator> Lender<T, A> {
    /// The box can be lent.
    pub fn new(whole: Box<T, A>) -> Lender<T, A>
    where
        T: Drop,
        ensures { (result.value ≡ whole.value) × (result.out ≡ 0) }
    {
        let (at, alloc) = Box::into_raw_with_allocator(whole);
        Lender { at, alloc }
    }

    /// One loan more is out.
    pub fn lend(self) -> (Lender<T, A>, Loan<T>)
        requires { self.out + 1 < 2 ^ 63 }
        ensures { (result.0 ≡ record self { out = self.out + 1 })
            × (result.1.value ≡ self.value) × (result.1.term ≡ self.term) }
    {
        let at = self.at;
        (self, Loan { at })
    }

    /// A loan is back.
    pub fn take_back(self, loan: Loan<T>) -> Lender<T, A>
        requires { (loan.term ≡ self.term) × (0 < self.out) × (self.out < 2 ^ 63) }
        ensures { result ≡ record self { out = self.out - 1 } }
    {
        let Loan { at: _ } = loan;
        self
    }

    /// The box, when no loan is out.
    pub fn into_box(self) -> Box<T, A>
        requires { self.out ≡ 0 }
        ensures { result.value ≡ self.value }
    {
        let Lender { at, alloc } = self;
        unsafe { Box::from_raw(alloc, at) }
    }
}

unsafe impl<T: Sync> Send for Loan<T> {}

unsafe impl<T: Sync> Sync for Loan<T> {}
