//! Ids of threads.
ghost use Rattle.std.specs.Prelude.{◌≡◌, ◌≤◌, ◌+◌, ◌++◌};
ghost use Rattle.arrayvec.specs.ArrayVec.{array_vec_len};
ghost use Rattle.gdb_packets.specs.Hexadecimal.{number_digits};
ghost use Rattle.gdb_packets.specs.Around.{around};
ghost use Rattle.gdb_packets.specs.Ids.{which_number, which_from, process_from, id_from, id_text};
ghost use Rattle.gdb_packets.specs.declared.ids.ThreadId.TheVariants.{Both};
ghost use Rattle.gdb_packets.specs.declared.ids.Which.TheVariants.{Only};

use crate::around::around;
use crate::hexadecimal::{push_number, read_number};
use arrayvec::ArrayVec;

/// Which processes or threads are meant.
#[derive(Clone, Copy, Debug, PartialEq, Eq)]
pub enum Which {
    /// all of them, `-1`
    All,
    /// any of them, 0
    Any,
    /// the one of this number
    Only(u32),
}

/// Which threads are meant.
#[derive(Clone, Copy, Debug, PartialEq, Eq)]
pub enum ThreadId {
    /// `pP.T`: of these processes these threads
    Both { process: Which, thread: Which },
    /// `pP`: of these processes all threads
    ProcessAlone(Which),
    /// `T`: these threads, whatever their process
    ThreadAlone(Which),
}

fn which_number(number: u32) -> Which
    ensures { result ≡ which_number number }
{
    if number == 0 {
        Which::Any
    } else {
        Which::Only(number)
    }
}

fn read_which(text: &[u8]) -> Option<Which>
    ensures { result ≡ which_from text.now }
{
    if text == b"-1".as_slice() {
        return Some(Which::All);
    }
    match read_number(text) {
        None => None,
        Some(number) => Some(which_number(number)),
    }
}

/// Behind the `p`.
fn read_process(text: &[u8]) -> Option<ThreadId>
    ensures { result ≡ process_from (around 46 text.now) text.now }
{
    let Some((process, thread)) = around(text, b'.') else {
        return match read_which(text) {
            None => None,
            Some(process) => Some(ThreadId::ProcessAlone(process)),
        };
    };
    let Some(process) = read_which(process) else {
        return None;
    };
    let Some(thread) = read_which(thread) else {
        return None;
    };
    Some(ThreadId::Both { process, thread })
}

/// The id that is spelled so.
pub fn read_id(text: &[u8]) -> Option<ThreadId>
    ensures { result ≡ id_from text.now }
{
    if let [b'p', rest @ ..] = text {
        return read_process(rest);
    }
    match read_which(text) {
        None => None,
        Some(thread) => Some(ThreadId::ThreadAlone(thread)),
    }
}

/// Writes `pP.T`, as ids of one thread are sent. There must be room for 18 bytes.
pub fn push_id<const N: usize>(to: &mut ArrayVec<u8, N>, process: u32, thread: u32)
    requires { array_vec_len to.old + 18 ≤ N }
    ensures items { to.new.items ≡ to.old.items ++ id_text (Both (Only process) (Only thread)) }
    ensures len { array_vec_len to.new ≤ array_vec_len to.old + 18 }
{
    to.push(b'p');
    push_number(to, process);
    to.push(b'.');
    push_number(to, thread);
}
