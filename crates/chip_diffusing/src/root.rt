ghost use Rattle.std.specs.Prelude.{◌≡◌, ◌↔◌, Contains, IsTrue};
ghost use Rattle.chip_detect.specs.Books.{in_edges, deficit};
ghost use Rattle.chip_detect.specs.Acknowledging.{may_ack};
ghost use Rattle.chip_diffusing.specs.Computation.{Ack, NotesEvent};
ghost use Rattle.chip_diffusing.specs.Laws.{IsOver};

use chip_detect::Detect;

/// Acknowledges all messages that a process may acknowledge on an edge now; returns their number.
pub fn acknowledge(books: &mut Detect, edge: u64, passive: bool) -> u64
    requires { Contains (in_edges books.old) edge }
    ensures allowed { result ≡ may_ack books.old edge passive }
    ensures notes { NotesEvent books.old (Ack edge result) books.new }
{
    let count = books.may_ack(edge, passive);
    books.acked(edge, count);
    count
}

/// Whether the root may report that the computation is over: it sends no more, and waits for no acknowledgement.
pub fn is_over(books: &Detect, ended: bool) -> bool
    ensures closed { IsTrue result ↔ IsTrue ended × (deficit books.now ≡ 0) }
    ensures over { IsTrue result → IsOver books.now ended }
{
    ended && books.deficit() == 0
}
