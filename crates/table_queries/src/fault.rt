//! Why a run came to no CSV file.

ghost use Rattle.std.specs.Prelude.{◌≡◌};
ghost use Rattle.diagnostics.specs.declared.fault.Fault.TheVariants.{NoMemory};
ghost use Rattle.table_queries.specs.declared.fault.RunFault.TheVariants.{Run, Tables};

use std::alloc::AllocError;

/// What goes wrong with the tables, or with the query and the run.
#[derive(Drop)]
pub enum RunFault<'a> {
    Tables(table_commands::Fault<'a>),
    Run(diagnostics::Fault),
}

impl<'a> From<table_commands::Fault<'a>> for RunFault<'a> {
    ghost from_gives = { λ fault made. made ≡ Tables fault };

    fn from(fault: table_commands::Fault<'a>) -> RunFault<'a> {
        RunFault::Tables(fault)
    }
}

impl<'a> From<diagnostics::Fault> for RunFault<'a> {
    ghost from_gives = { λ fault made. made ≡ Run fault };

    fn from(fault: diagnostics::Fault) -> RunFault<'a> {
        RunFault::Run(fault)
    }
}

impl<'a> From<AllocError> for RunFault<'a> {
    ghost from_gives = { λ _ made. made ≡ Run NoMemory };

    fn from(_e: AllocError) -> RunFault<'a> {
        RunFault::Run(diagnostics::Fault::NoMemory)
    }
}
