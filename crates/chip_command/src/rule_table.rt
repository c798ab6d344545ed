//! The table of rules: why an event of a simulation does not happen now, and what to do.

use crate::table::{Explanation, Place, row};

static NO_SUCH: Explanation = row!(1 NoSuch NOWHERE: "there is no such vertex or edge", "\
Vertices and edges are numbered from 0. In a graph with m edges, edge m + v is the root edge of
vertex v. Only edges of the graph can be claimed and sealed, and only root edges can be fed.
");

static SINK: Explanation = row!(2 Sink NOWHERE: "the vertex is the sink", "\
The sink takes and acknowledges messages. It never fires and never halts.
");

static HALTED: Explanation = row!(3 Halted NOWHERE:
    "the vertex is halted; for an edge, its tail is", "\
A halted vertex no longer fires or sends. It still takes, settles and acknowledges messages.
");

static PENDING: Explanation = row!(4 Pending NOWHERE:
    "the vertex has not yet sent what its last firings made", "\
On some edge out of the vertex, chips are pending, or a message is claimed but not put. Clear,
claim and put on each such edge. Then the vertex may fire again.
");

static ZERO: Explanation = row!(5 Zero NOWHERE: "the vertex would fire 0 times", "\
The count of a fire or a feed must be at least 1.
");

static LIMIT: Explanation = row!(6 Limit NOWHERE:
    "the vertex would fire more often than the limit allows", "\
All firings of the vertex in this run count. Without `--limit` each vertex may fire 2^40 times.
");

static NOT_LEGAL: Explanation = row!(7 NotLegal NOWHERE:
    "the vertex has too few chips for these firings", "\
A firing sends as many chips along each edge out as the edge's multiplicity. `chipfire check`
writes the sum of these numbers as `degree`. A vertex must take chips before it can fire them.
");

static NOTHING_PENDING: Explanation = row!(8 NothingPending NOWHERE:
    "nothing is pending on the edge", "\
Only a firing of the edge's tail makes chips pending. The next claim takes all of them.
");

static REFUSED: Explanation = row!(9 Refused NOWHERE:
    "a claim of the edge was refused, since the edge is sealed", "\
Nothing more is sent on this edge. The tail may halt.
");

static UNPUT: Explanation = row!(10 Unput NOWHERE: "a message is claimed and not put", "\
The message is on this edge, or on some edge out of the vertex that should halt. First put the
message.
");

static NOT_CLEARED: Explanation = row!(11 NotCleared NOWHERE:
    "the next cell of the edge was not seen empty", "\
First clear the edge. If the reply is `full`, the head of the edge must take a message before
that. Each claim and each feed needs its own clear.
");

static NOT_CLAIMED: Explanation = row!(12 NotClaimed NOWHERE:
    "no message is claimed on the edge and not put", "\
Each claim with the reply `sent`, and each feed of a root edge, needs one put after it.
");

static NO_CAUSE: Explanation = row!(13 NoCause NOWHERE: "the vertex has no cause to halt", "\
There are two causes. A claim of an edge out of the vertex was refused. Or nothing is pending,
and the vertex has enough chips to fire, but has fired as often as the limit allows.
");

static NOTHING_OWED: Explanation = row!(14 NothingOwed NOWHERE:
    "no acknowledgement is owed on the edge", "\
The head of the edge owes one acknowledgement for each message that it took from the edge.
");

static ENGAGED: Explanation = row!(15 Engaged NOWHERE:
    "the message that engaged the vertex may not be acknowledged yet", "\
The vertex acknowledges this message last. First it must have nothing to fire or to send, owe no
acknowledgement on another edge, and have settled all messages that it sent. `--books` shows the
vertex's deficit and what it owes.
");

static NOT_CLOSED: Explanation = row!(16 NotClosed NOWHERE: "the root is not closed", "\
You can read a vertex only when the root is closed: the end of feeding is noted, and all
messages on root edges are settled.
");

static ENDED: Explanation = row!(17 Ended NOWHERE: "the end of feeding is noted", "\
No feed may follow the event end. Without `--fed` the end of feeding is noted at the start.
");

static TOO_MUCH: Explanation = row!(18 TooMuch NOWHERE:
    "these chips and those given before are more than 1099511627776", "\
The limit is 2^40. It holds for the chips at the start and all fed chips together.
");

/// All rules, by their numbers.
pub fn rules() -> [&'static Explanation; 18] {
    [
        &NO_SUCH,
        &SINK,
        &HALTED,
        &PENDING,
        &ZERO,
        &LIMIT,
        &NOT_LEGAL,
        &NOTHING_PENDING,
        &REFUSED,
        &UNPUT,
        &NOT_CLEARED,
        &NOT_CLAIMED,
        &NO_CAUSE,
        &NOTHING_OWED,
        &ENGAGED,
        &NOT_CLOSED,
        &ENDED,
        &TOO_MUCH,
    ]
}
