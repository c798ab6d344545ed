ghost use Rattle.std.specs.Prelude.{◌≡◌, [], length, map, slice_index_or, ◌<◌};
ghost use Rattle.chip_graph.specs.PackedLists.{flat, lists_of, AreStarts};

use std::marker::Model;

/// Lists stored one after another in one vector.
#[derive(Drop)]
pub(crate) struct PackedLists<T> {
    /// The start of each list, and then the end of the last one.
    starts: Vec<u32>,
    members: Vec<T>,
}

impl<T> Model for PackedLists<T> {
    ghost use Rattle.std.specs.Prelude.{List};
    ghost use Rattle.chip_graph.specs.PackedLists.{lists_of, AreStarts};
    ghost use Rattle.std.specs.Prelude.{length};

    ghost Value = { List (List T) };

    ghost view = { λ p. lists_of p.starts.items p.members.items };

    ghost invariant = { λ p. AreStarts p.starts.items (length p.members.items) };
}

impl<T: Copy> PackedLists<T> {
    /// The lists that `starts` cuts `members` into.
    pub(crate) fn new(starts: Vec<u32>, members: Vec<T>) -> Self
        requires { AreStarts starts.items (length members.items) }
        ensures { result ≡ lists_of starts.items members.items }
    {
        PackedLists { starts, members }
    }

    /// The members of all lists, one list after the other.
    pub(crate) fn members(&self) -> &[T]
        ensures { result.now ≡ flat self.now }
    {
        &self.members
    }

    /// The list with this index.
    pub(crate) fn list(&self, i: usize) -> &[T]
        requires { i < length self.now }
        ensures { result.now ≡ slice_index_or self.now i [] }
    {
        self.beside(i, self.members())
    }

    /// The elements of `things` for the list with this index, if `things` has one for each member.
    pub(crate) fn beside<'a, U>(&self, i: usize, things: &'a [U]) -> &'a [U]
        requires inside { i < length self.now }
        requires one_each { length things.now ≡ length (flat self.now) }
        ensures { (f : T → U) → things.now ≡ map f (flat self.now)
            → result.now ≡ map f (slice_index_or self.now i []) }
    {
        let start = self.starts[i];
        let end = self.starts[i + 1];
        &things[start as usize..end as usize]
    }
}
