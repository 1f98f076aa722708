// The command `inspect`.
ghost use Rattle.std.specs.Prelude.{◌≡◌, ◌≢◌, ◌≤◌, ℕ, List, Option, [], Err, IfOk, IfErr};
ghost use Rattle.logged_runs.specs.Recording.{HostSeen};
ghost use Rattle.dos_texts.specs.Exit.{ending_status};
ghost use Rattle.dos_words.specs.declared.request.Request.TheVariants as requests;
ghost use Rattle.dos_cmd.specs.Asking.{Asks, named_by};
ghost use Rattle.dos_cmd.specs.Outside.{outside, faults};
ghost use Rattle.dos_cmd.specs.Results.{Begun, Did, Leaves};

use crate::images::load;
use dos_io::{Files, Sink};
use dos_texts::{Refusal, put_inspect};
use dos_world::Ending;
use std::alloc::Global;

/// Does what `inspect` is asked for.
pub(crate) fn inspect<F: Files, O: Sink>(
    alloc: Global,
    name: &str,
    files: &mut F,
    out: &mut O,
) -> Result<Ending, Refusal>
    // whatever a host and error tell, and however often they failed
    ensures did { (h : HostSeen) (e : Option (List ℕ)) (t : ℕ) → IfOk result (λ ending.
        Begun (requests.Inspect name.now)
        (outside (F.tells files.old) (F.content files.old) (F.content files.new) h h
        (O.told out.old) (O.told out.new) e e t t)
        (λ taken. Did (requests.Inspect name.now) taken (ending_status ending)
        (outside (F.tells files.old) (F.content files.old) (F.content files.new) h h
        (O.told out.old) (O.told out.new) e e t t))) }
    ensures leaves { (h : HostSeen) (e : Option (List ℕ)) (t m n : ℕ) → IfErr result (λ why.
        Leaves (requests.Inspect name.now)
        (outside (F.tells files.old) (F.content files.old) (F.content files.new) h h
        (O.told out.old) (O.told out.new) e e t t)
        (faults (F.faults files.old) (F.faults files.new) m m
        (O.faults out.old) (O.faults out.new) n n) why []) }
    ensures asked { Asks (named_by (requests.Inspect name.now)) result (F.asked files.old)
        (F.asked files.new) }
    ensures files_later { F.faults files.old ≤ F.faults files.new }
    ensures out_later { O.faults out.old ≤ O.faults out.new }
    ensures out_steady { result ≢ Err Refusal.Sink → O.faults out.new ≡ O.faults out.old }
{
    let (image, _digest, content) = load(alloc, files, 1, name)?;
    drop(content);
    let put = put_inspect(&image, out);
    drop(image);
    match put {
        Ok(()) => Ok(Ending::Done),
        Err(_) => Err(Refusal::Sink),
    }
}
