// The services that there are, by number.
ghost use Rattle.std.specs.Prelude.{◌≡◌};
ghost use Rattle.kernel_calls.specs.Built.{named};

/// The services; `specs/Built` has their numbers and what they do.
#[derive(Clone, Copy)]
pub(crate) enum Service {
    /// One that the kernel's state alone decides.
    Quiet(QuietService),
    Read,
    Write,
    Clock,
}

/// The services that ask nothing of the shim and send nothing to a sink.
#[derive(Clone, Copy)]
pub(crate) enum QuietService {
    ThreadExit,
    ProcessExit,
    ThreadNew,
    Fork,
    Wait,
    Pipe,
    Close,
    Dup,
    FutexWait,
    FutexWake,
    MapPages,
    Unmap,
    Share,
    SigHandler,
    SigMask,
    SigReturn,
    Kill,
    GetPid,
    GetTid,
    Yield,
    RoundNumber,
}

// The services by their numbers, from 1.
const SERVICES: [Service; 24] = [
    Service::Quiet(QuietService::ThreadExit),
    Service::Quiet(QuietService::ProcessExit),
    Service::Quiet(QuietService::ThreadNew),
    Service::Quiet(QuietService::Fork),
    Service::Quiet(QuietService::Wait),
    Service::Quiet(QuietService::Pipe),
    Service::Read,
    Service::Write,
    Service::Quiet(QuietService::Close),
    Service::Quiet(QuietService::Dup),
    Service::Quiet(QuietService::FutexWait),
    Service::Quiet(QuietService::FutexWake),
    Service::Quiet(QuietService::MapPages),
    Service::Quiet(QuietService::Unmap),
    Service::Quiet(QuietService::Share),
    Service::Quiet(QuietService::SigHandler),
    Service::Quiet(QuietService::SigMask),
    Service::Quiet(QuietService::SigReturn),
    Service::Quiet(QuietService::Kill),
    Service::Quiet(QuietService::GetPid),
    Service::Quiet(QuietService::GetTid),
    Service::Clock,
    Service::Quiet(QuietService::Yield),
    Service::Quiet(QuietService::RoundNumber),
];

/// The service of this number, where there is one.
pub(crate) fn service_named(number: u32) -> Option<Service>
    ensures { result ≡ named number }
{
    if number < 1 || number > 24 {
        return None;
    }
    Some(SERVICES[(number - 1) as usize])
}
