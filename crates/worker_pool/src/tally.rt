// How much work was done.
ghost use Rattle.std.specs.Prelude.{◌≡◌, ◌+◌, ◌%◌, ◌^◌};

/// How many instructions workers have run, modulo 2^64. It can't be cloned; `Workers::run_all`
/// makes it grow.
#[derive(Drop)]
pub struct Tally {
    count: u64,
}

impl Tally {
    /// Nothing was run yet.
    pub fn new() -> Tally
        ensures { result.count ≡ 0 }
    {
        Tally { count: 0 }
    }

    /// How many instructions were run.
    pub fn count(&self) -> u64
        ensures { result ≡ self.now.count }
    {
        self.count
    }

    /// So many more were run: for who runs packs by a way of its own.
    pub fn add(&mut self, more: u64)
        ensures { self.new.count ≡ (self.old.count + more) % 2 ^ 64 }
    {
        self.count = self.count.wrapping_add(more);
    }
}
