//! Going on with a play that a limit or a seal stopped.

ghost use Rattle.std.specs.Prelude.{◌≡◌, ℕ, ◌<◌, ◌≤◌, IfOk, IfErr, length, slice_index};
ghost use Rattle.chip_sequence.specs.Stages.{IsResumed, IsPlayFrom, fired_in_all, max_prior};
ghost use Rattle.chip_sequence.specs.Resume.{Resumes, IsPriorFault};

use crate::player::plain_watched;
use crate::watch::{Unwatched, Watch};
use chip_graph::{Game, Graph};
use chip_sequence::{MAX_PRIOR, ResumeFault, Resumed};
use std::alloc::Global;

/// Plays on from where an earlier stage ended, on the same graph, with a firing limit of this stage's own.
///
/// The stage is `plain`'s on the chips that lie there, and what was fired before it is what was fired in all so far.
/// So the counts of all stages add up, and if the last one ends with no vertex legal they are those of a play that
/// was never stopped.
pub fn resume(
    alloc: Global,
    graph: Graph,
    earlier: &Resumed,
    limit: u64,
) -> Result<Resumed, ResumeFault>
    requires { IsResumed earlier.now }
    ensures answer { Resumes graph earlier.now limit result }
    ensures goes_on { IfOk result
        (λ resumed. (x : ℕ → ℕ) → IsPlayFrom graph x earlier.now → IsPlayFrom graph x resumed) }
{
    resume_watched(alloc, graph, earlier, limit, &mut Unwatched)
}

/// Plays on as `resume` does, and reports its progress to `watch`. The result is the same, whoever
/// watches.
pub fn resume_watched<W: Watch>(
    alloc: Global,
    graph: Graph,
    earlier: &Resumed,
    limit: u64,
    watch: &mut W,
) -> Result<Resumed, ResumeFault>
    requires { IsResumed earlier.now }
    ensures answer { Resumes graph earlier.now limit result }
    ensures goes_on { IfOk result
        (λ resumed. (x : ℕ → ℕ) → IsPlayFrom graph x earlier.now → IsPlayFrom graph x resumed) }
{
    let chips = &earlier.outcome.chips;
    if chips.len() as u64 != graph.vertices() {
        return Err(ResumeFault::Mismatch);
    }
    let start = Vec::from_slice(alloc, chips)?;
    let game = Game::new(graph, start, limit)?;
    let prior = counts_so_far(alloc, earlier)?;
    watch.plays(&game);
    let outcome = plain_watched(alloc, &game, watch)?;
    Ok(Resumed { outcome, prior })
}

/// How often each vertex fired in all stages so far, or the least vertex that did so too often.
fn counts_so_far(alloc: Global, earlier: &Resumed) -> Result<Vec<u64>, ResumeFault>
    requires { IsResumed earlier.now }
    ensures ok { IfOk result (λ sums. (length sums.items ≡ length earlier.now.prior.items)
        × ((v : ℕ) → v < length sums.items → (slice_index sums.items v ≡ fired_in_all earlier.now v)
        × (fired_in_all earlier.now v ≤ max_prior))) }
    ensures err { IfErr result (λ fault. IsPriorFault earlier.now fault) }
{
    let Resumed { outcome, prior } = earlier;
    let mut sums = Vec::with_capacity(alloc, prior.len())?;
    for vertex in 0..prior.len() {
        let sum = prior[vertex] + outcome.fired[vertex];
        if sum > MAX_PRIOR {
            return Err(ResumeFault::Prior(vertex as u64));
        }
        sums.push_reserved(sum);
    }
    Ok(sums)
}
