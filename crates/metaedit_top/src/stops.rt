// The faults that stop a run.
ghost use Rattle.std.specs.Prelude.{◌≡◌};
ghost use Rattle.metaedit_top.specs.declared.outcome.Stop.TheVariants as stop;
ghost use Rattle.metaedit_top.specs.Stage.{stop_of_plan, stop_of_read, stop_of_recovery, stop_of_report};

use crate::outcome::Stop;
use me_disk::DepotFault;
use me_report::ReportFault;
use part_tree::{NoMemory, PlanFault, ReadFault};
use recovery::RecoverFault;

impl From<DepotFault> for Stop {
    ghost from_gives = { λ _ e. e ≡ stop.Depot };

    fn from(_: DepotFault) -> Stop {
        Stop::Depot
    }
}

impl From<NoMemory> for Stop {
    ghost from_gives = { λ _ e. e ≡ stop.Memory };

    fn from(_: NoMemory) -> Stop {
        Stop::Memory
    }
}

impl From<ReadFault> for Stop {
    ghost from_gives = { λ fault e. e ≡ stop_of_read fault };

    fn from(fault: ReadFault) -> Stop {
        match fault {
            ReadFault::Why(why) => Stop::NotSupported(why),
            ReadFault::Depot => Stop::Depot,
            ReadFault::Memory => Stop::Memory,
        }
    }
}

impl From<PlanFault> for Stop {
    ghost from_gives = { λ fault e. e ≡ stop_of_plan fault };

    fn from(fault: PlanFault) -> Stop {
        match fault {
            PlanFault::TooLarge { size, limit } => Stop::TooLarge { size, limit },
            PlanFault::Depot => Stop::Depot,
            PlanFault::Memory => Stop::Memory,
        }
    }
}

impl From<ReportFault> for Stop {
    ghost from_gives = { λ fault e. e ≡ stop_of_report fault };

    fn from(fault: ReportFault) -> Stop {
        match fault {
            ReportFault::Depot => Stop::Depot,
            ReportFault::Memory => Stop::Memory,
        }
    }
}

impl From<RecoverFault> for Stop {
    ghost from_gives = { λ fault e. e ≡ stop_of_recovery fault };

    fn from(fault: RecoverFault) -> Stop {
        match fault {
            RecoverFault::NoFile => Stop::NoFile,
            RecoverFault::Damaged { at } => Stop::Damaged { at },
            RecoverFault::Depot => Stop::Depot,
        }
    }
}
