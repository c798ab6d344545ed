//! The faults of commands, and the line in which each is printed.

use crate::status::Status;
use crate::table::name_of;
use chip_file::FileFault;
use chip_graph::GameFault;
use chip_log::OrderFault;
use chip_report::{ReportFault, WriteFault};
use chip_sequence::ResumeFault;
use chip_trace::{ReplayFault, TraceFault};
use std::alloc::{AllocError, AllocFailed};
use std::error::Error;
use std::fmt;

/// Why a command failed.
#[derive(Clone, Copy, PartialEq, Eq)]
pub enum Fault {
    /// The text of a file, or its bytes.
    File(FileFault),
    /// The numbers of a game.
    Game(GameFault),
    /// The bytes are no report.
    NotReport,
    /// The play of a report cannot go on.
    Resume(ResumeFault),
    /// The limit of firings stopped the stabilization of this row of chips.
    Stopped(u64),
    /// A report has another end of the game. This is the least vertex that differs.
    Differs(u64),
    /// A number of the plan for a crew is out of range.
    Plan,
    /// All turns of a crew were made, and this number of the root's messages is not acknowledged.
    Unfinished(u64),
    /// A gate refused a worker's turn.
    GateShut,
    /// The actor of this vertex was lost among the threads.
    Lost(u64),
    /// There were two actors of this vertex.
    Doubled(u64),
    /// A thread could not be started.
    Spawn,
    /// The recorded runs of a trace, or the rows of a log, have no interleaving. This row of this vertex, or of this
    /// process, is to blame.
    Stuck { vertex: u64, row: u64 },
    /// This process is expected, and the log has no row of it.
    Absent(u64),
    /// The file of `--trace` or `--report` could not be written to its end.
    WriteFile,
    /// The output could not be written to its end.
    Write(WriteFault),
    /// The arguments do not form a command.
    Usage,
    /// The file that this argument names could not be opened. Arguments count from 1 after the command.
    Open(u64),
    /// Memory ran out.
    NoMemory,
}

impl From<FileFault> for Fault {
    ghost use Rattle.std.specs.Prelude.{◌≡◌};
    ghost use Rattle.chip_command.specs.Faults.{fault_of_file};

    ghost from_gives = { λ file fault. fault ≡ fault_of_file file };

    fn from(fault: FileFault) -> Fault {
        match fault {
            FileFault::NoMemory => Fault::NoMemory,
            fault => Fault::File(fault),
        }
    }
}

impl From<GameFault> for Fault {
    ghost use Rattle.std.specs.Prelude.{◌≡◌};
    ghost use Rattle.chip_command.specs.declared.fault.Fault.TheVariants.{Game};

    ghost from_gives = { λ game fault. fault ≡ Game game };

    fn from(fault: GameFault) -> Fault {
        Fault::Game(fault)
    }
}

impl From<ReportFault> for Fault {
    ghost use Rattle.std.specs.Prelude.{◌≡◌};
    ghost use Rattle.chip_command.specs.Faults.{fault_of_report};

    ghost from_gives = { λ report fault. fault ≡ fault_of_report report };

    fn from(fault: ReportFault) -> Fault {
        match fault {
            ReportFault::NotReport => Fault::NotReport,
            ReportFault::NoMemory => Fault::NoMemory,
        }
    }
}

impl From<ResumeFault> for Fault {
    ghost use Rattle.std.specs.Prelude.{◌≡◌};
    ghost use Rattle.chip_command.specs.Faults.{fault_of_resume};

    ghost from_gives = { λ resume fault. fault ≡ fault_of_resume resume };

    fn from(fault: ResumeFault) -> Fault {
        match fault {
            ResumeFault::NoMemory => Fault::NoMemory,
            fault => Fault::Resume(fault),
        }
    }
}

impl From<ReplayFault> for Fault {
    ghost use Rattle.std.specs.Prelude.{◌≡◌};
    ghost use Rattle.chip_command.specs.Faults.{fault_of_replay};

    ghost from_gives = { λ replay fault. fault ≡ fault_of_replay replay };

    fn from(fault: ReplayFault) -> Fault {
        match fault {
            ReplayFault::Stuck { vertex, row } => Fault::Stuck { vertex, row },
            ReplayFault::NoMemory => Fault::NoMemory,
        }
    }
}

impl From<OrderFault> for Fault {
    ghost use Rattle.std.specs.Prelude.{◌≡◌};
    ghost use Rattle.chip_command.specs.Faults.{fault_of_order};

    ghost from_gives = { λ order fault. fault ≡ fault_of_order order };

    fn from(fault: OrderFault) -> Fault {
        match fault {
            OrderFault::Stuck { process, row } => Fault::Stuck {
                vertex: u64::from(process),
                row,
            },
            OrderFault::NoMemory => Fault::NoMemory,
        }
    }
}

impl From<TraceFault> for Fault {
    ghost use Rattle.std.specs.Prelude.{◌≡◌};
    ghost use Rattle.chip_command.specs.Faults.{fault_of_trace};

    ghost from_gives = { λ trace fault. fault ≡ fault_of_trace trace };

    fn from(fault: TraceFault) -> Fault {
        match fault {
            TraceFault::Write => Fault::WriteFile,
            TraceFault::NoMemory => Fault::NoMemory,
        }
    }
}

impl From<WriteFault> for Fault {
    ghost use Rattle.std.specs.Prelude.{◌≡◌};
    ghost use Rattle.chip_command.specs.declared.fault.Fault.TheVariants.{Write};

    ghost from_gives = { λ write fault. fault ≡ Write write };

    fn from(fault: WriteFault) -> Fault {
        Fault::Write(fault)
    }
}

impl From<AllocError> for Fault {
    ghost use Rattle.std.specs.Prelude.{◌≡◌};
    ghost use Rattle.chip_command.specs.declared.fault.Fault.TheVariants.{NoMemory};

    ghost from_gives = { λ _ fault. fault ≡ NoMemory };

    fn from(_error: AllocError) -> Fault {
        Fault::NoMemory
    }
}

impl<T: Drop> From<AllocFailed<T>> for Fault {
    ghost use Rattle.std.specs.Prelude.{◌≡◌};
    ghost use Rattle.chip_command.specs.declared.fault.Fault.TheVariants.{NoMemory};

    ghost from_gives = { λ _ fault. fault ≡ NoMemory };

    fn from(_error: AllocFailed<T>) -> Fault {
        Fault::NoMemory
    }
}

/// The place of a fault: the numbers that are printed after its name.
#[derive(Clone, Copy)]
pub enum Location {
    Nowhere,
    /// An edge, a vertex, a row, an argument, or a number of bytes or messages.
    At(u64),
    AtRow { vertex: u64, row: u64 },
}

impl Location {
    ghost use Rattle.std.specs.Prelude.{◌≡◌};
    ghost use Rattle.chip_command.specs.FaultNumbers.{location_at};

    /// The location of a library's fault that names this place.
    fn of(place: Option<u64>) -> Location
        ensures { result ≡ location_at place }
    {
        place.map_or(Location::Nowhere, Location::At)
    }
}

impl fmt::Display for Location {
    ghost use Rattle.std.specs.Prelude.{Some};
    ghost use Rattle.chip_command.specs.FaultNumbers.{location_text};

    ghost output = { λ location. Some (location_text location) };

    fn fmt<W: fmt::Write>(&self, f: &mut fmt::Formatter<W>) -> fmt::Result {
        match self {
            Location::Nowhere => Ok(()),
            Location::At(number) => write!(f, " {number}"),
            Location::AtRow { vertex, row } => write!(f, " {vertex} {row}"),
        }
    }
}

/// The printed parts of a fault: its number, its name, and its place.
#[derive(Clone, Copy)]
pub struct FaultLine {
    pub number: u64,
    pub name: &'static str,
    pub location: Location,
}

impl fmt::Display for Fault {
    fn fmt<W: fmt::Write>(&self, f: &mut fmt::Formatter<W>) -> fmt::Result {
        let line = self.line();
        write!(f, "fault {} {}{}", line.number, line.name, line.location)
    }
}

impl fmt::Debug for Fault {
    fn fmt<W: fmt::Write>(&self, f: &mut fmt::Formatter<W>) -> fmt::Result {
        fmt::Display::fmt(self, f)
    }
}

impl Error for Fault {}

impl Fault {
    ghost use Rattle.std.specs.Prelude.{◌≡◌};
    ghost use Rattle.chip_command.specs.FaultNumbers.{print_fault, command_fault_number, location_of, status_of_fault};

    /// The exit status of a command that failed so: 3 for too few turns, which is no fault of the inputs, else 1.
    pub fn status(&self) -> Status
        ensures { result ≡ status_of_fault self.now }
    {
        match self {
            Fault::Unfinished(_) => Status::Unfinished,
            _ => Status::Failed,
        }
    }

    /// The parts of the line in which the fault is printed.
    pub fn line(&self) -> FaultLine
        ensures number { result.number ≡ command_fault_number self.now }
        ensures location { result.location ≡ location_of self.now }
    {
        let (number, location) = self.print();
        FaultLine {
            number,
            name: name_of(number),
            location,
        }
    }

    fn print(&self) -> (u64, Location)
        ensures { result ≡ print_fault self.now }
    {
        match self {
            Fault::File(fault) => (fault.number(), Location::of(fault.place())),
            Fault::Game(fault) => (fault.number(), Location::Nowhere),
            Fault::NotReport => (ReportFault::NotReport.number(), Location::Nowhere),
            Fault::Resume(fault) => (fault.number(), Location::of(fault.place())),
            Fault::Stopped(row) => (13, Location::At(*row)),
            Fault::Absent(process) => (34, Location::At(*process)),
            Fault::Differs(vertex) => (53, Location::At(*vertex)),
            Fault::Plan => (60, Location::Nowhere),
            Fault::Unfinished(deficit) => (61, Location::At(*deficit)),
            Fault::GateShut => (62, Location::Nowhere),
            Fault::Lost(vertex) => (63, Location::At(*vertex)),
            Fault::Doubled(vertex) => (64, Location::At(*vertex)),
            Fault::Spawn => (65, Location::Nowhere),
            Fault::Stuck { vertex, row } => {
                let (vertex, row) = (*vertex, *row);
                let number = ReplayFault::Stuck { vertex, row }.number();
                (number, Location::AtRow { vertex, row })
            }
            Fault::NoMemory => (90, Location::Nowhere),
            Fault::Usage => (91, Location::Nowhere),
            Fault::Open(argument) => (92, Location::At(*argument)),
            Fault::Write(fault) => (fault.number(), Location::At(fault.written)),
            Fault::WriteFile => (TraceFault::Write.number(), Location::Nowhere),
        }
    }
}
