// Why a run came to no ending, as the reason for which a call comes to no report.
ghost use Rattle.std.specs.Prelude.{◌≡◌};
ghost use Rattle.dos_cmd.specs.Stops.{refusal_by};

use dos_texts::Refusal;
use kernel_calls::RunStop;

/// The refusal of a call whose run stopped so.
pub(crate) fn refusal_by(stop: RunStop) -> Refusal
    ensures { result ≡ refusal_by stop }
{
    match stop {
        RunStop::OutFault => Refusal::Sink,
        RunStop::ErrFault => Refusal::Sink,
        RunStop::HostFault => Refusal::Host,
        RunStop::LogFull => Refusal::LogFull,
        RunStop::Misfit(found) => Refusal::Misfit(found),
        RunStop::Memory => Refusal::Memory,
    }
}
