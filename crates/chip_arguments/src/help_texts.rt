//! The version, and the end of the program's help.

/// The version that `--version` prints. Packages, the Python package and the manual page read it here.
pub const VERSION: &str = "0.13.1";

pub const PROGRAM: &str = "\
Exit status: 0 done, and no vertex was stopped; 1 a fault, in one line on standard error; 2 some
vertex was stopped, the chips of `recurrent` are not recurrent, `replay` has something left, or
`judge` finds an early claim; 3 `simulate` leaves the root open, `run` has too few turns (fault
61), or `judge` finds no claim.

`chipfire explain N` explains fault N. `chipfire help COMMAND` shows the options, the exit
statuses and an example of this command.

The name - means standard input, for at most one of the files that a command reads.

Without arguments, chipfire plays a small built-in game, and writes its report.";
