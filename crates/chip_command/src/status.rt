//! The exit statuses of commands.

ghost use Rattle.std.specs.Prelude.{◌≡◌};

/// How a command ended.
#[derive(Clone, Copy)]
pub enum Status {
    /// The command did all that it should, and no vertex of a game halted.
    Done = 0,
    Failed = 1,
    /// The game closed, and some vertex halted.
    Halted = 2,
    /// The root of a simulation, or of a crew without turns left, is still open.
    Unfinished = 3,
}

impl Status {
    ghost use Rattle.chip_command.specs.Statuses.{number_of_status};

    /// The exit status of the process, 0 to 3.
    pub fn number(self) -> u8
        ensures { result ≡ number_of_status self }
    {
        self as u8
    }
}
