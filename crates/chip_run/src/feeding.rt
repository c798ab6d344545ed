//! The chips that are fed while threads play.

ghost use Rattle.std.specs.Prelude.{◌≡◌, IfOk, MatchResult, option_map};
ghost use Rattle.std.specs.Option.{ForSome};
ghost use Rattle.chip_run.specs.Feeding.{ForText, MeansFeeds, MeansFed, RefusesFeeds, RefusesFed};

use chip_command::Fault;
use chip_file::read_chips_within;
use chip_graph::Limits;
use std::alloc::{AllocError, Global};
use std::io::Read;

/// The feeds of a file for a game with `vertices` vertices, if there is a file.
pub(crate) fn read_fed<F: Read>(
    alloc: Global,
    limits: Limits,
    feed: Option<&mut F>,
    vertices: u64,
) -> Result<Option<Vec<(u64, u64)>>, Fault>
    ensures { ForText (option_map (λ reader. F.remaining reader.now) feed.entry)
        (λ text. MatchResult result
        (λ feeds. MeansFed limits text vertices (option_map (λ fed. fed.items) feeds)) (RefusesFed limits text vertices)) }
{
    match feed {
        Some(reader) => Ok(Some(read_feeds(alloc, limits, reader, vertices)?)),
        None => Ok(None),
    }
}

/// The feeds of a file for a game with `vertices` vertices.
fn read_feeds<F: Read>(
    alloc: Global,
    limits: Limits,
    reader: &mut F,
    vertices: u64,
) -> Result<Vec<(u64, u64)>, Fault>
    ensures { ForSome (F.remaining reader.old) (λ text. MatchResult result
        (λ feeds. MeansFeeds limits text vertices feeds.items) (RefusesFeeds limits text vertices)) }
{
    let chips = read_chips_within(alloc, limits, reader, vertices)?;
    Ok(feeds_of(alloc, &chips)?)
}

/// The vertices that have chips, ascending, each with its number of chips.
fn feeds_of(alloc: Global, chips: &[u64]) -> Result<Vec<(u64, u64)>, AllocError>
    ensures { IfOk result (λ feeds. feeds.items ≡ Rattle.chip_run.specs.Feeding.feeds_of chips.now) }
{
    let mut feeds = Vec::new(alloc);
    for (vertex, count) in chips.iter().enumerate() {
        if *count > 0 {
            feeds.push((vertex as u64, *count))?;
        }
    }
    Ok(feeds)
}
