//! The faults of what the layers below refuse.

ghost use Rattle.std.specs.Prelude.{◌≡◌};
ghost use Rattle.commands.specs.Faults.{follow_fault_of, run_fault_of, schedule_fault_of};

use diagnostics::Fault;
use execution::Unfinished;
use follow::Ending;
use schedule::ScheduleRefusal;

/// The fault of a run that came to no end, though all of its threads were started.
pub fn run_fault(unfinished: Unfinished) -> Fault
    ensures { result ≡ run_fault_of unfinished }
{
    match unfinished {
        Unfinished::NoMemory => Fault::NoMemory,
        Unfinished::Count => Fault::Count,
        Unfinished::NoWorker | Unfinished::Incomplete => Fault::Incomplete,
    }
}

/// The fault of following that ended before the whole input was answered.
pub fn follow_fault(ending: Ending) -> Fault
    ensures { result ≡ follow_fault_of ending }
{
    match ending {
        Ending::Input { code, line } => Fault::Input { code, line },
        Ending::Read => Fault::ReadInput,
        Ending::Write => Fault::Write,
        Ending::NoMemory => Fault::NoMemory,
        Ending::Count => Fault::Count,
        Ending::TooLong => Fault::Incomplete,
    }
}

/// The fault of a schedule that is refused.
pub fn schedule_fault(refusal: ScheduleRefusal) -> Fault
    ensures { result ≡ schedule_fault_of refusal }
{
    match refusal {
        ScheduleRefusal::NoMemory => Fault::NoMemory,
        ScheduleRefusal::At { code, line } => Fault::Schedule { code, line },
    }
}
