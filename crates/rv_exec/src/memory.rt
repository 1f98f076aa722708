// What an instruction needs of memory.
ghost use Rattle.std.specs.Prelude.{◌≡◌};
ghost use Rattle.flat_machine.specs.Over.{MemoryAnswers};
ghost use Rattle.rv_exec.specs.Follows.{word_in, answer_of_store, after_of};

use dos_world::{Reason, Size};

/// The memory of one thread. What its calls answer is a definition's, `answers`, for every state
/// that the memory shows: the flat world's, say, by which misaligned is fault 7, a page that isn't
/// mapped or lacks the right is fault 11, and another thread's page is `Reason::Page`. After an
/// error the memory shows what it showed before.
pub trait Memory {
    /// What the calls leave as it is, as the frames and spaces that are lent to a thread.
    ghost Fixed: { Type 0 };

    /// What they change, as the bytes of all frames.
    ghost State: { Type 0 };

    /// What they answer.
    ghost answers: { Fixed → MemoryAnswers State };

    /// What stands still, and in which state the memory may be.
    ghost shows: { Self → Fixed → State → Type 0 };

    /// Two bytes of an instruction, at a multiple of 2.
    fn fetch_half(&mut self, address: u32) -> Result<u16, Reason>
        ensures { (f : Fixed) (m : State) → shows self.old f m
            → shows self.new f m × (result ≡ (answers f).fetch m address) };

    /// The word of an instruction, as its two halfwords one after another; the first alone where
    /// its low two bits aren't 11.
    fn fetch_word(&mut self, address: u32) -> Result<u32, Reason>
        ensures { (f : Fixed) (m : State) → shows self.old f m
            → shows self.new f m × (result ≡ word_in (answers f) m address) }
    {
        match self.fetch_half(address) {
            Err(reason) => Err(reason),
            Ok(low) => {
                if low % 4 != 3 {
                    return Ok(u32::from(low));
                }
                match self.fetch_half(address.wrapping_add(2)) {
                    Err(reason) => Err(reason),
                    Ok(high) => Ok(u32::from(low) + 65536 * u32::from(high)),
                }
            }
        }
    }

    /// The number at an address, zero-extended.
    fn load(&mut self, address: u32, size: Size) -> Result<u32, Reason>
        ensures { (f : Fixed) (m : State) → shows self.old f m
            → shows self.new f m × (result ≡ (answers f).load m address size) };

    /// The low bytes of the value are stored.
    fn store(&mut self, address: u32, size: Size, value: u32) -> Result<(), Reason>
        ensures { (f : Fixed) (m : State) → shows self.old f m
            → shows self.new f (after_of m ((answers f).store m address size value))
            × (result ≡ answer_of_store ((answers f).store m address size value)) };

    /// The word at an address; a word that is stored there next is stored.
    fn claim(&mut self, address: u32) -> Result<u32, Reason>
        ensures { (f : Fixed) (m : State) → shows self.old f m
            → shows self.new f m × (result ≡ (answers f).claim m address) };
}
