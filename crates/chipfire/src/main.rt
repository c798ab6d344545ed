//! chipfire: a chip-firing machine that is proved right.
//!
//! Each command is an engine, of `chip_engine` or of `chip_run`, whose contract relates the bytes that it reads to the
//! bytes that it writes. `chip_console` reads the arguments, opens the files that they name and calls the engine.
#![tactic(auto)]

use chip_console::respond;
use std::process::ExitCode;

fn main(rt: HostRuntime) -> ExitCode {
    respond(&rt, &rt.stderr())
}
