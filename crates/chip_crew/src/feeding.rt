//! How worker 0 feeds a game while it runs.

ghost use Rattle.std.specs.Prelude.{◌≡◌};
ghost use Rattle.std.specs.Option.{option_copied};
ghost use Rattle.chip_crew.specs.Feeding.{MayFeed, MayFeedLeft, FeedsNext, FeedsOnce};

use chip_net::{FeedFault, Net, Root};

/// Makes the next feed, and returns those left. If its cell is full, it is still left.
#[cold]
fn feed_next<'a>(net: &Net, root: &mut Root, left: &'a [(u64, u64)]) -> &'a [(u64, u64)]
    requires net { root.old.net ≡ net.now }
    requires may { MayFeed root.old left.now }
    ensures fed { FeedsNext left.now result.now root.old root.new }
    ensures net { root.new.net ≡ net.now }
{
    let [(vertex, count), rest @ ..] = left else {
        return left;
    };
    match root.feed(net, *vertex, *count) {
        Ok(_) => rest,
        Err(FeedFault::Full) => left,
        // What a crew feeds stays within the total, and it notes the end only once nothing is left.
        Err(FeedFault::Ended | FeedFault::Total) => unreachable!(),
    }
}

/// Makes the next feed, and notes the end once none is left. If it is noted, does nothing.
pub(crate) fn feed_once(net: &Net, root: &mut Root, left: &mut Option<&[(u64, u64)]>)
    requires net { root.old.net ≡ net.now }
    requires may { MayFeedLeft root.old (option_copied left.old) }
    ensures fed { FeedsOnce (option_copied left.old) (option_copied left.new) root.old root.new }
    ensures net { root.new.net ≡ net.now }
{
    let Some(feeds) = *left else {
        return;
    };
    let rest = feed_next(net, root, feeds);
    *left = if rest.is_empty() {
        root.end(net);
        None
    } else {
        Some(rest)
    };
}
