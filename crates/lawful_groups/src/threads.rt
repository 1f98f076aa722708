// Whether threads agree with their processes and with who sleeps.
ghost use Rattle.std.specs.Prelude.{◌≡◌, length, count_by, ◌==◌};
ghost use Rattle.std.specs.List.{list_all};
ghost use Rattle.lawful_groups.specs.Agreeing.{is_thread_in, lives_in, sleeps_once_in};

use dos_world::ThreadState;
use group_text::{ProcessRecord, SleeperRecord, ThreadRecord};

fn lives(processes: &[ProcessRecord], pid: u32) -> bool
    ensures { result ≡ lives_in processes.now pid }
{
    if pid == 0 {
        return false;
    }
    match processes.get((pid - 1) as usize) {
        Some(process) => process.status.is_none(),
        None => false,
    }
}

// whether the process of each thread lives
pub(crate) fn all_live(processes: &[ProcessRecord], threads: &[ThreadRecord]) -> bool
    ensures { result ≡ list_all (λ t. lives_in processes.now t.pid) threads.now }
{
    threads.iter().all(|thread| lives(processes, thread.pid))
}

// how often a thread stands in the queue
fn turns(sleepers: &[SleeperRecord], tid: u32) -> usize
    ensures { result ≡ count_by (λ s. s.tid == tid) sleepers.now }
{
    let mut count = 0;
    for i in 0..sleepers.len() {
        if sleepers[i].tid == tid {
            count += 1;
        }
    }
    count
}

fn sleeps_once(sleepers: &[SleeperRecord], thread: &ThreadRecord) -> bool
    ensures { result ≡ sleeps_once_in sleepers.now thread.now }
{
    let wanted = match thread.state {
        ThreadState::Ready => 0,
        ThreadState::Retry => 0,
        ThreadState::Asleep => 1,
    };
    turns(sleepers, thread.tid) == wanted
}

// whether each thread stands in the queue once where it is asleep, and else not
pub(crate) fn all_sleep_once(sleepers: &[SleeperRecord], threads: &[ThreadRecord]) -> bool
    ensures { result ≡ list_all (sleeps_once_in sleepers.now) threads.now }
{
    threads.iter().all(|thread| sleeps_once(sleepers, thread))
}

fn is_thread(threads: &[ThreadRecord], sleeper: SleeperRecord) -> bool
    ensures { result ≡ is_thread_in threads.now sleeper }
{
    threads.iter().any(|thread| thread.tid == sleeper.tid)
}

// whether each who stands in the queue is a thread that lives
pub(crate) fn all_threads(threads: &[ThreadRecord], sleepers: &[SleeperRecord]) -> bool
    ensures { result ≡ list_all (is_thread_in threads.now) sleepers.now }
{
    sleepers.iter().all(|sleeper| is_thread(threads, *sleeper))
}
