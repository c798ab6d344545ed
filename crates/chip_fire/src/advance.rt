//! A search for counts beside a play: it begins, and then both have turns and make as many visits.

ghost use Rattle.std.specs.Prelude.{◌≡◌, ◌+◌, ◌*◌, ◌/◌, ◌≤◌, [], true, IfSome, IsTrue};
ghost use Rattle.chip_fire.specs.Rounds.{OnlyRise, GoesRound};
ghost use Rattle.chip_fire.specs.Search.{FewVisits, IsShort, places};
ghost use Rattle.chip_fire.specs.Course.{IsCourse, IsSearching};

use crate::course::{Course, Searching};
use crate::play::Play;
use crate::soon::visits_at_all;
use crate::tuning::{EDGES_OF_DENSE, MOST_AHEAD, PART_OF_TURN, STRETCH, TURN};
use crate::watch::Watch;
use chip_graph::Graph;
use chip_guess::{AHEAD, Hierarchy, Search};
use std::alloc::Global;

impl Play<'_> {
    /// Begins to search counts after `alone` visits of the play alone, which by these needs about `needed` more and
    /// has `waits` chips that wait to move. If there is no memory, no counts are searched.
    #[tactic(auto, using(crate::proofs::VisitsLemmas::visits_at_end))]
    pub(crate) fn begin_search<W: Watch>(
        &mut self,
        alloc: Global,
        alone: u64,
        needed: u64,
        waits: u64,
        visits: &mut u64,
        watch: &mut W,
    ) -> Course
        requires { FewVisits self.old.game [] self.old.fired 0 alone true }
        ensures same { self.new ≡ self.old }
        ensures course { IsCourse self.old.game self.new.chips self.new.fired result }
        ensures at_most { visits.new ≤ visits.old + 160 * places self.old.game }
    {
        let mut searched = 0u64;
        let made = self.make_search(alloc, alone, needed, waits, &mut searched);
        *visits = visits.saturating_add(searched);
        if let Some(searching) = made {
            return Course::Searches(searching);
        }
        watch.searched(self, alone, 0, searched);
        Course::Rounds
    }

    /// A search for counts from those so far on, if there is memory.
    fn make_search(
        &self,
        alloc: Global,
        alone: u64,
        needed: u64,
        waits: u64,
        searched: &mut u64,
    ) -> Option<Box<Searching>>
        requires unsearched { searched.old ≡ 0 }
        requires few { FewVisits self.now.game [] self.now.fired 0 alone true }
        ensures begun { 16 * places self.now.game ≤ searched.new }
        ensures ahead { searched.new ≤ 160 * places self.now.game }
        ensures made { IfSome result (λ boxed. IsSearching self.now.game self.now.fired boxed.value) }
    {
        let graph = self.game.graph();
        let most = visits_at_all(graph).saturating_mul(AHEAD);
        let hierarchy = Hierarchy::new(alloc, graph, searched, most)?;
        let before = Vec::from_slice(alloc, &self.fired).ok()?;
        let least = needed.min(most).max(*searched);
        let leads = hierarchy.is_symmetric() && !is_dense(graph);
        let ahead = self.ahead(leads, alone, least);
        let search = Search::new(alloc, hierarchy, self.game, &before).ok()?;
        let searching = Searching {
            search: Box::new(alloc, search).ok()?,
            before,
            leads,
            alone,
            ahead,
            beside: 0,
            turn_end: 0,
            judged: 0,
            waited: waits,
            searched: *searched,
        };
        Box::new(alloc, searching).ok()
    }

    /// How many visits a search makes before the play has its turns: `least`, or more if it leads and the chips cannot all
    /// stay. Then it makes twice as many as the play needs to dissipate these, by what it has dissipated in its `alone`
    /// visits so far, if what it dissipates grows as the square root of its visits.
    fn ahead(&self, leads: bool, alone: u64, least: u64) -> u64
        requires few { least ≤ 160 * places self.now.game }
        ensures enough { least ≤ result }
        ensures most { result ≤ 16384 * places self.now.game }
    {
        if !leads {
            return least;
        }
        let most = visits_at_all(self.game.graph()).saturating_mul(MOST_AHEAD);
        let ratio = self.chips_too_many() / self.dissipated_chips().max(1);
        let needed = alone.saturating_mul(ratio).saturating_mul(ratio);
        needed.saturating_mul(2).min(most).max(least)
    }

    /// How many chips more the vertices have than they may keep at the end, up to 2^64 - 1.
    fn chips_too_many(&self) -> u64 {
        let graph = self.game.graph();
        let mut chips = 0u64;
        let mut room = 0u64;
        for vertex in 0..graph.vertices() {
            if vertex != graph.sink() {
                chips = chips.saturating_add(self.chips[vertex as usize]);
                room = room.saturating_add(graph.out_degree(vertex).saturating_sub(1));
            }
        }
        chips.saturating_sub(room)
    }

    /// How many chips have come to the sink.
    fn dissipated_chips(&self) -> u64 {
        let sink = self.game.graph().sink() as usize;
        self.chips[sink].saturating_sub(self.game.start()[sink])
    }

    /// Goes on by a part of the play's turn, or by one of the search's, of about `most` visits. The play goes on at the
    /// counts that were found, if they are certified.
    pub(crate) fn search_on<W: Watch>(
        &mut self,
        alloc: Global,
        searching: Box<Searching>,
        most: u64,
        visits: &mut u64,
        watch: &mut W,
    ) -> Course
        requires { IsSearching self.old.game self.old.fired searching.value }
        ensures same { self.new.game ≡ self.old.game }
        ensures rises { OnlyRise self.old.fired self.new.fired }
        ensures course { IsCourse self.old.game self.new.chips self.new.fired result }
        ensures at_most { visits.new ≤ visits.old + most + 160 * places self.old.game }
    {
        let mut boxed = searching;
        let searching: &mut Searching = &mut boxed;
        let goes_on = if searching.beside < searching.turn_end {
            self.turn_beside(alloc, searching, most, visits, watch)
        } else {
            self.search_turn(alloc, searching, most, visits, watch)
        };
        if goes_on {
            Course::Searches(boxed)
        } else {
            Course::Rounds
        }
    }

    /// Goes on by a part of the play's turn beside a search; whether that goes on.
    #[tactic(auto, using(crate::proofs::VisitsLemmas::visits_beside, crate::proofs::VisitsLemmas::visits_at_end))]
    fn turn_beside<W: Watch>(
        &mut self,
        alloc: Global,
        searching: &mut Searching,
        most: u64,
        visits: &mut u64,
        watch: &mut W,
    ) -> bool
        requires searching { IsSearching self.old.game self.old.fired searching.old }
        requires turn { searching.old.beside ≤ searching.old.turn_end }
        ensures same { self.new.game ≡ self.old.game }
        ensures rises { OnlyRise self.old.fired self.new.fired }
        ensures searching { IsTrue result → IsSearching self.old.game self.new.fired searching.new }
        ensures at_most { visits.new ≤ visits.old + most + 160 * places self.old.game }
    {
        let before = searching.beside;
        let part = (searching.turn_end - before).min(STRETCH).min(most);
        let goes_on = self.stretch(alloc, part, &mut searching.beside, watch);
        *visits = visits.saturating_add(searching.beside - before);
        if !goes_on {
            self.end_search(searching, watch);
        }
        goes_on
    }

    /// Goes on by a part of the search's turn; whether that goes on.
    #[tactic(auto, using(crate::proofs::VisitsLemmas::visits_at_end))]
    fn search_turn<W: Watch>(
        &mut self,
        alloc: Global,
        searching: &mut Searching,
        most: u64,
        visits: &mut u64,
        watch: &mut W,
    ) -> bool
        requires searching { IsSearching self.old.game self.old.fired searching.old }
        ensures same { self.new.game ≡ self.old.game }
        ensures rises { OnlyRise self.old.fired self.new.fired }
        ensures searching { IsTrue result → IsSearching self.old.game self.new.fired searching.new }
        ensures at_most { visits.new ≤ visits.old + most + 160 * places self.old.game }
    {
        let before = searching.searched;
        let due = share_of_search(searching);
        let longest = visits_at_all(self.game.graph()).saturating_mul(AHEAD);
        let next = searching.search.visits_of_next().min(longest);
        let part = before.saturating_add(next.max(STRETCH.min(most))).min(due);
        let is_over = searching.search.go_on(
            alloc,
            self.game,
            &searching.before,
            &mut searching.searched,
            part,
        );
        *visits = visits.saturating_add(searching.searched - before);
        match is_over {
            Ok(false) if part < due && searching.searched > before => {
                watch.searches(&searching.search);
                true
            }
            Ok(false) => {
                watch.searches(&searching.search);
                self.grant_turn(searching, watch)
            }
            _ => {
                self.end_search(searching, watch);
                self.take_found(alloc, searching);
                false
            }
        }
    }

    /// Gives the play its turn, if the search has made as many visits as the play and may not make more first; whether
    /// both go on.
    #[tactic(auto, using(crate::proofs::VisitsLemmas::visits_at_end))]
    fn grant_turn<W: Watch>(&mut self, searching: &mut Searching, watch: &mut W) -> bool
        requires searching { IsSearching self.old.game self.old.fired searching.old }
        ensures same { self.new ≡ self.old }
        ensures searching { IsTrue result → IsSearching self.old.game self.old.fired searching.new }
    {
        if searching.beside > searching.searched {
            self.end_search(searching, watch);
            return false;
        }
        if self.judge(searching) {
            return true;
        }
        let turn = turn_of(visits_at_all(self.game.graph()), searching);
        searching.turn_end = searching.beside.saturating_add(turn);
        true
    }

    /// Lets a search that leads make more visits before the play's next turn, if the play is still far from its end: as
    /// many as the play needs if chips come to rest no faster than since it was judged last, but at most five times as
    /// many as it has made. Whether it may make more.
    fn judge(&self, searching: &mut Searching) -> bool
        requires { IsSearching self.now.game self.now.fired searching.old }
        ensures searching { IsSearching self.now.game self.now.fired searching.new }
        ensures same { (searching.new.beside ≡ searching.old.beside)
            × (searching.new.searched ≡ searching.old.searched) }
    {
        if !searching.leads || searching.beside <= searching.judged {
            return false;
        }
        let waits = self.waiting_chips();
        let less = searching.waited.saturating_sub(waits).max(1);
        let made = searching.beside - searching.judged;
        let needed = made.saturating_mul(waits) / less;
        let played = searching.alone.saturating_add(searching.beside);
        let most = visits_at_all(self.game.graph()).saturating_mul(MOST_AHEAD);
        let more = needed.min(played.saturating_mul(5)).min(most);
        let may_more = more > searching.ahead;
        searching.ahead = searching.ahead.max(more);
        searching.judged = searching.beside;
        searching.waited = waits;
        may_more
    }

    /// Makes a round beside a search; what the play is at then, and whether the round fired a vertex. A search that has
    /// fallen behind by more than a turn is given up.
    #[tactic(auto, using(crate::proofs::VisitsLemmas::visits_beside, crate::proofs::VisitsLemmas::visits_at_end))]
    pub(crate) fn round_beside<W: Watch>(
        &mut self,
        searching: Box<Searching>,
        visits: &mut u64,
        watch: &mut W,
    ) -> (Course, bool)
        requires { IsSearching self.old.game self.old.fired searching.value }
        ensures same { self.new.game ≡ self.old.game }
        ensures course { IsCourse self.old.game self.new.chips self.new.fired result.0 }
        ensures round { GoesRound self.old.game self.old.fired self.new.chips self.new.fired result.1 }
        ensures at_most { visits.new ≤ visits.old + places self.old.game }
    {
        let mut boxed = searching;
        let searching: &mut Searching = &mut boxed;
        let turn = turn_of(visits_at_all(self.game.graph()), searching);
        if searching.beside > searching.searched.saturating_add(turn) {
            self.end_search(searching, watch);
            return (Course::Rounds, self.rounds(0, visits, watch));
        }
        let before = searching.beside;
        let goes_on = self.rounds(0, &mut searching.beside, watch);
        *visits = visits.saturating_add(searching.beside - before);
        if goes_on {
            return (Course::Searches(boxed), true);
        }
        self.end_search(searching, watch);
        (Course::Ended, false)
    }

    /// Reports a search that is over.
    fn end_search<W: Watch>(&mut self, searching: &Searching, watch: &mut W)
        requires { IsShort self.old.game self.old.fired searching.now.alone searching.now.beside searching.now.searched }
        ensures { self.new ≡ self.old }
    {
        watch.searched(self, searching.alone, searching.beside, searching.searched);
    }

    /// Goes on at the counts that a search found, if it did and they are certified.
    fn take_found(&mut self, alloc: Global, searching: &Searching)
        ensures same { self.new.game ≡ self.old.game }
        ensures rises { OnlyRise self.old.fired self.new.fired }
    {
        let limit = self.game.limit();
        if let Some(guess) = searching.search.found(alloc, &searching.before, limit) {
            let _ = self.raise_to(alloc, &guess);
        }
    }
}

/// Whether a graph has many edges for its vertices, so that each round moves many chips.
fn is_dense(graph: &Graph) -> bool {
    graph.edges().len() as u64 > graph.vertices().saturating_mul(EDGES_OF_DENSE)
}

/// How many visits a search may have made in all.
fn share_of_search(searching: &Searching) -> u64
    requires { searching.now.searched ≤ searching.now.ahead + 2 * searching.now.alone + searching.now.beside }
    ensures enough { searching.now.searched ≤ result }
    ensures share { result ≤ searching.now.ahead + 2 * searching.now.alone + searching.now.beside }
{
    searching
        .ahead
        .saturating_add(searching.alone.saturating_mul(2))
        .saturating_add(searching.beside)
        .max(searching.searched)
}

/// How many visits the play makes in a turn beside a search, on a game with `all` vertices and edges.
fn turn_of(all: u64, searching: &Searching) -> u64
    ensures { result ≤ 4 * all + (searching.now.alone + searching.now.beside) / 4 }
{
    let played = searching.alone.saturating_add(searching.beside);
    all.saturating_mul(TURN).max(played / PART_OF_TURN)
}
