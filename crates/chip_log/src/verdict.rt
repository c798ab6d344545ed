/// Whether a claim that the computation is over is right.
#[derive(Clone, Copy, PartialEq, Eq)]
pub enum Verdict {
    /// In each interleaving the log is quiescent when the claim is made, and at each moment after it.
    Right,
    /// In some interleaving this message is in transit then. Messages of a channel count from 0.
    OnItsWay { channel: u32, message: u64 },
    /// In some interleaving no message is in transit then, and this process is active.
    Active { process: u32 },
}

impl Verdict {
    ghost use Rattle.std.specs.Prelude.{◌≡◌};
    ghost use Rattle.chip_log.specs.Judged.{is_early};

    /// Whether the claim is not right.
    pub fn is_early(self) -> bool
        ensures { result ≡ is_early self }
    {
        match self {
            Verdict::Right => false,
            Verdict::OnItsWay { .. } | Verdict::Active { .. } => true,
        }
    }
}
