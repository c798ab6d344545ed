ghost use Rattle.std.specs.Prelude.{◌≡◌};
ghost use Rattle.chip_part.specs.Part.{is_by_limit};

/// Why a vertex halted. There is no third cause.
#[derive(Clone, Copy, PartialEq, Eq)]
pub enum Cause {
    /// A seal refused a claim of it.
    SealedEdge,
    /// It was legal, had sent everything, and had fired as often as the game allows.
    FiringLimit,
}

/// Whether the firing limit is the cause.
pub fn is_by_limit(cause: Option<Cause>) -> bool
    ensures { result ≡ is_by_limit cause }
{
    match cause {
        Some(Cause::FiringLimit) => true,
        Some(Cause::SealedEdge) | None => false,
    }
}
