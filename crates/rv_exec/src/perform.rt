// One instruction over any memory.
ghost use Rattle.std.specs.Prelude.{◌≡◌, ℕ, Ok};
ghost use Rattle.dos_world.specs.World.{with_pc};
ghost use Rattle.rv_form.specs.Forms.{IsFormOf};
ghost use Rattle.flat_machine.specs.Over.{one_in};
ghost use Rattle.rv_exec.specs.Follows.{Follows, word_in};
ghost use Rattle.rv_exec.specs.Arrivals.{arrived, went};

use crate::form_perform::{arrive, perform_form};
use crate::{Memory, Next, Went};
use dos_world::{Reason, Regs};
use rv_form::{Form, form_of};

/// The code at pc is fetched and decoded, a word or a halfword alone, and its instruction done.
#[inline(always)]
fn fetch_and_perform<M: Memory>(regs: &mut Regs, memory: &mut M, pc: u32, why: &mut Reason) -> Next
    ensures { (f : M.Fixed) (m : M.State) → M.shows memory.old f m
        → Follows (M.shows memory.new f) m (with_pc regs.old pc) (arrived regs.new pc result)
        (went result why.new) (one_in (M.answers f) (with_pc regs.old pc) m) }
{
    match memory.fetch_word(pc) {
        Ok(word) => {
            let form = form_of(word);
            perform_form(regs, memory, &form, pc, why)
        }
        Err(reason) => {
            *why = reason;
            Next::Not
        }
    }
}

/// One instruction of the thread whose registers these are, on any memory: the registers and the
/// memory after it, or why it stops, with nothing changed. Fault 4 is an illegal instruction, fault
/// 5 an ebreak, fault 7 a misaligned access or a jump to a misaligned target, fault 11 a page that
/// isn't mapped or lacks the right; `Reason::Page` is another thread's page, and `Reason::Service`
/// an ecall. Over the flat world it is the thread's step, which also takes one of its budget
/// (round_core's law `steps_are_one_over_the_world`).
#[inline(always)]
pub fn one<M: Memory>(regs: &mut Regs, memory: &mut M) -> Went
    ensures { (f : M.Fixed) (m : M.State) → M.shows memory.old f m
        → Follows (M.shows memory.new f) m regs.old regs.new result
        (one_in (M.answers f) regs.old m) }
{
    let pc = regs.pc();
    let mut why = Reason::Service;
    let next = fetch_and_perform(regs, memory, pc, &mut why);
    arrive(regs, pc, next, why)
}

/// One instruction at pc, which stands beside the registers, by the form of the word that a fetch
/// finds there, and where it leads. It is what `one` does with pc in the registers; where it leads
/// nowhere, `why` is the reason.
#[inline(always)]
pub fn one_known<M: Memory>(
    regs: &mut Regs,
    memory: &mut M,
    form: &Form,
    pc: u32,
    why: &mut Reason,
) -> Next
    ensures { (f : M.Fixed) (m : M.State) (word : ℕ) → IsFormOf word form.now
        → word_in (M.answers f) m pc ≡ Ok word → M.shows memory.old f m
        → Follows (M.shows memory.new f) m (with_pc regs.old pc) (arrived regs.new pc result)
        (went result why.new) (one_in (M.answers f) (with_pc regs.old pc) m) }
{
    perform_form(regs, memory, form, pc, why)
}
