//! The way to an end that may be near.

ghost use Rattle.std.specs.Prelude.{◌≡◌, ◌↔◌, ◌+◌, ◌*◌, ◌<◌, ◌≤◌, [], true, All, length, slice_index, Ok};
ghost use Rattle.chip_sequence.specs.Firing.{IsLegal, IsStable};
ghost use Rattle.chip_fire.specs.Rounds.{OnlyRise, GoesRound, IsAtRest};
ghost use Rattle.chip_fire.specs.Search.{FewVisits, places};
ghost use Rattle.chip_fire.specs.Course.{IsCourse};
ghost use Rattle.chip_fire.specs.declared.work_list.Listing.TheVariants.{Ends};

use crate::course::{Course, Doubling};
use crate::play::Play;
use crate::tuning::{
    FEW_VISITS, FIRST_VISITS, LIST_STRETCH, PLACES_IN_CACHE, STRETCH, VERTICES_PER_CHIP,
    VERTICES_PER_HELD, VISITS_OF_FEW, VISITS_OF_LIST,
};
use crate::watch::Watch;
use crate::work_list::{Listing, few_legal, is_legal};
use chip_graph::Graph;
use std::alloc::{AllocError, Global};

impl Play<'_> {
    /// A play begins by a work list if few chips wait to move, or if all chips stay in few places of a large graph: it
    /// makes about `most` visits. If no vertex is legal, it has ended.
    pub(crate) fn begin(&mut self, alloc: Global, most: u64, visits: &mut u64) -> Course
        ensures same { self.new.game ≡ self.old.game }
        ensures rises { OnlyRise self.old.fired self.new.fired }
        ensures course { IsCourse self.old.game self.new.chips self.new.fired result }
        ensures at_most { visits.new ≤ visits.old + most + 160 * places self.old.game }
    {
        // (if too many vertices are legal for a list, many chips wait)
        let Ok(Some(legal)) = few_legal(alloc, self.game.graph(), &self.chips) else {
            return self.soon();
        };
        if legal.is_empty() {
            return Course::Stable;
        }
        if self.waiting_at(&legal) > self.few_chips() && !self.stays_in_cache() {
            return self.soon();
        }
        let left = visits_at_all(self.game.graph()).saturating_mul(VISITS_OF_LIST);
        let part = self.part_of(left, most);
        let listing = self.work_off_listed(legal, part, visits);
        self.after_list(listing, left, part)
    }

    /// It goes on by rounds that are judged.
    #[tactic(auto, using(crate::proofs::VisitsLemmas::none_from_start))]
    pub(crate) fn soon(&self) -> Course
        ensures { IsCourse self.now.game self.now.chips self.now.fired result }
    {
        let all = visits_at_all(self.game.graph());
        Course::Doubles(Doubling {
            visits: 0,
            end: 0,
            work: all.saturating_mul(FIRST_VISITS),
            waited: u64::MAX,
        })
    }

    /// How many chips are few.
    fn few_chips(&self) -> u64 {
        self.game.graph().vertices() / VERTICES_PER_CHIP
    }

    /// Whether no cache holds the graph, but the few places to which its chips can come.
    fn stays_in_cache(&self) -> bool {
        let graph = self.game.graph();
        if visits_at_all(graph) <= PLACES_IN_CACHE {
            return false;
        }
        let mut chips = 0u64;
        for vertex in 0..graph.vertices() {
            if vertex != graph.sink() {
                chips = chips.saturating_add(self.chips[vertex as usize]);
            }
        }
        chips <= graph.vertices() / VERTICES_PER_HELD
    }

    /// Goes on by a work list for a part of the `left` visits, about `most` of them, and then by rounds, if many chips wait
    /// by then.
    pub(crate) fn work_off_part(
        &mut self,
        alloc: Global,
        left: u64,
        most: u64,
        visits: &mut u64,
    ) -> Course
        ensures same { self.new.game ≡ self.old.game }
        ensures rises { OnlyRise self.old.fired self.new.fired }
        ensures course { IsCourse self.old.game self.new.chips self.new.fired result }
        ensures at_most { visits.new ≤ visits.old + most + 160 * places self.old.game }
    {
        let part = self.part_of(left, most);
        let listing = self.work_off_few(alloc, part, visits);
        self.after_list(listing, left, part)
    }

    /// The part of the `left` visits that a work list is given next: about `most` of them.
    fn part_of(&self, left: u64, most: u64) -> u64
        ensures { result ≤ most + places self.now.game }
    {
        let all = visits_at_all(self.game.graph());
        let stretch = all.saturating_mul(LIST_STRETCH).max(STRETCH);
        // (a turn may take as many visits as there are vertices and edges)
        left.min(stretch).min(most.max(all))
    }

    /// What the play is at after a work list for this part of the `left` visits.
    fn after_list(&self, listing: Result<Listing, AllocError>, left: u64, part: u64) -> Course
        requires { listing ≡ Ok Ends → IsStable self.now.game.graph (slice_index self.now.chips) }
        ensures { IsCourse self.now.game self.now.chips self.now.fired result }
    {
        match listing {
            Ok(Listing::Ends) => return Course::Stable,
            Ok(Listing::GoesOn) if part < left => return Course::WorkList(left - part),
            _ => {}
        }
        let waits = self.waiting_chips();
        if waits == 0 {
            return Course::Ended;
        }
        if waits > self.few_chips() && !self.stays_in_cache() {
            let all = visits_at_all(self.game.graph());
            return Course::FewChips(all.saturating_mul(VISITS_OF_FEW));
        }
        self.soon()
    }

    /// Goes on by rounds for a part of the `left` visits, about `most` of them.
    pub(crate) fn play_part<W: Watch>(
        &mut self,
        alloc: Global,
        left: u64,
        most: u64,
        visits: &mut u64,
        watch: &mut W,
    ) -> Course
        ensures same { self.new.game ≡ self.old.game }
        ensures rises { OnlyRise self.old.fired self.new.fired }
        ensures course { IsCourse self.old.game self.new.chips self.new.fired result }
        ensures at_most { visits.new ≤ visits.old + most + 160 * places self.old.game }
    {
        let before = *visits;
        let part = left.min(STRETCH).min(most);
        if !self.stretch(alloc, part, visits, watch) {
            return Course::Ended;
        }
        let left = left.saturating_sub(*visits - before);
        if left > 0 {
            return Course::FewChips(left);
        }
        self.soon()
    }

    /// Goes on by rounds for as long as they take it soon to an end: each time with twice the work, while that halves the
    /// chips that wait to move or the limit leaves little to do. Then counts are searched. It makes about `most` visits.
    #[tactic(auto, using(crate::proofs::VisitsLemmas::visits_more))]
    pub(crate) fn double<W: Watch>(
        &mut self,
        alloc: Global,
        doubling: Doubling,
        most: u64,
        visits: &mut u64,
        watch: &mut W,
    ) -> Course
        requires { FewVisits self.old.game [] self.old.fired 0 doubling.visits true }
        ensures same { self.new.game ≡ self.old.game }
        ensures rises { OnlyRise self.old.fired self.new.fired }
        ensures course { IsCourse self.old.game self.new.chips self.new.fired result }
        ensures at_most { visits.new ≤ visits.old + most + 160 * places self.old.game }
    {
        let mut next = doubling;
        if next.visits >= next.end {
            let few = visits_at_all(self.game.graph()).saturating_mul(FEW_VISITS);
            let waits = self.waiting_chips();
            if waits > next.waited / 2
                && !leaves_little(self.game.limit(), &self.fired, next.visits, few)
            {
                let needed = needed_by(next, waits);
                return self.begin_search(alloc, next.visits, needed, waits, visits, watch);
            }
            next.waited = waits;
            next.end = next.visits.saturating_add(next.work);
            next.work = next.work.saturating_mul(2);
        }
        let due = next.end.saturating_sub(next.visits);
        let part = due.min(STRETCH).min(most);
        let before = next.visits;
        let goes_on = self.stretch(alloc, part, &mut next.visits, watch);
        *visits = visits.saturating_add(next.visits - before);
        if goes_on {
            Course::Doubles(next)
        } else {
            Course::Ended
        }
    }

    /// Makes a round; what the play is at then, and whether the round fired a vertex.
    #[tactic(auto, using(crate::proofs::VisitsLemmas::visits_more))]
    pub(crate) fn round_of<W: Watch>(
        &mut self,
        doubling: Doubling,
        visits: &mut u64,
        watch: &mut W,
    ) -> (Course, bool)
        requires { FewVisits self.old.game [] self.old.fired 0 doubling.visits true }
        ensures same { self.new.game ≡ self.old.game }
        ensures course { IsCourse self.old.game self.new.chips self.new.fired result.0 }
        ensures round { GoesRound self.old.game self.old.fired self.new.chips self.new.fired result.1 }
        ensures at_most { visits.new ≤ visits.old + places self.old.game }
    {
        let mut next = doubling;
        let before = next.visits;
        let goes_on = self.rounds(0, &mut next.visits, watch);
        *visits = visits.saturating_add(next.visits - before);
        if goes_on {
            (Course::Doubles(next), true)
        } else {
            (Course::Ended, false)
        }
    }

    /// The chips that legal vertices have above what they may keep, up to 2^64 - 1: 0 exactly if the play is at rest.
    pub(crate) fn waiting_chips(&self) -> u64
        ensures { (result ≡ 0) ↔ IsAtRest self.now.game self.now.chips self.now.fired }
    {
        let mut waits = 0u64;
        for vertex in 0..self.game.graph().vertices() {
            waits = waits.saturating_add(self.waiting_of(vertex));
        }
        waits
    }

    /// Those of these vertices alone.
    fn waiting_at(&self, vertices: &[u64]) -> u64
        requires { All (λ v. v < self.now.game.graph.vertices) vertices.now }
    {
        let mut waits = 0u64;
        for vertex in vertices {
            waits = waits.saturating_add(self.waiting_of(*vertex));
        }
        waits
    }

    /// Those of one vertex.
    #[inline]
    fn waiting_of(&self, vertex: u64) -> u64
        requires { vertex < self.now.game.graph.vertices }
        ensures { (result ≡ 0) ↔ (IsLegal self.now.game.graph (slice_index self.now.chips) vertex
            → slice_index self.now.fired vertex ≡ self.now.game.limit) }
    {
        let (graph, v) = (self.game.graph(), vertex as usize);
        if !is_legal(graph, &self.chips, vertex) || self.fired[v] >= self.game.limit() {
            return 0;
        }
        let above = self.chips[v].saturating_sub(graph.out_degree(vertex));
        above.saturating_add(1)
    }
}

/// The work of visiting each vertex and each edge out once.
pub(crate) fn visits_at_all(graph: &Graph) -> u64
    ensures { result ≡ graph.now.vertices + length graph.now.edges }
{
    graph.vertices().saturating_add(graph.edges().len() as u64)
}

/// How many visits the chips that wait need before none waits, if those that wait no more grow as the square root of the
/// visits.
fn needed_by(doubling: Doubling, waits: u64) -> u64 {
    let less = doubling.waited.saturating_sub(waits).max(1);
    let times = (waits / less).saturating_add(1);
    doubling.visits.saturating_mul(times).saturating_mul(times)
}

/// Whether a play in which each vertex fires as often as the limit allows takes no more work than `few`, if the firings
/// so far took as much as `done`.
fn leaves_little(limit: u64, fired: &[u64], done: u64, few: u64) -> bool {
    let mut firings = 0u64;
    for times in fired {
        firings = firings.saturating_add(*times);
    }
    let mean = firings / (fired.len() as u64).max(1);
    let product = |a: u64, b: u64| u128::from(a).wrapping_mul(u128::from(b));
    product(done, limit) <= product(few, mean)
}
