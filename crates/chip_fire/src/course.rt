//! A play that goes on in portions, and what it is at between two of them.

ghost use Rattle.std.specs.Prelude.{◌≡◌, ◌+◌, ◌-◌, ◌*◌, ◌≤◌, ◌^◌, false};
ghost use Rattle.chip_fire.specs.Rounds.{OnlyRise, GoesRound};
ghost use Rattle.chip_fire.specs.Search.{places};
ghost use Rattle.chip_fire.specs.Course.{IsCourse};

use crate::play::Play;
use crate::tuning::STRETCH;
use crate::watch::Watch;
use chip_guess::Search;
use std::alloc::Global;

/// What a play is at.
#[derive(Drop)]
pub enum Course {
    /// Nothing was done yet.
    Begins,
    /// Few chips wait to move: it goes on by a work list, for at most this number of visits.
    WorkList(u64),
    /// Few chips have set off many: it goes on by rounds, for at most this number of visits.
    FewChips(u64),
    /// It goes on by rounds, as long as these take it soon to an end.
    Doubles(Doubling),
    /// Counts are searched while it goes on.
    Searches(Box<Searching>),
    /// It goes on by rounds to its end.
    Rounds,
    /// No vertex may fire within the limit.
    Ended,
    /// No vertex is legal.
    Stable,
}

/// Rounds that are judged each time that they have made twice the work.
#[derive(Clone, Copy)]
pub struct Doubling {
    /// How many visits they have made.
    pub(crate) visits: u64,
    /// At how many they are judged next.
    pub(crate) end: u64,
    /// How many they make after that.
    pub(crate) work: u64,
    /// How many chips waited to move when they were judged last.
    pub(crate) waited: u64,
}

/// A search for counts beside a play.
#[derive(Drop)]
pub struct Searching {
    pub(crate) search: Box<Search>,
    /// How often each vertex had fired when the search began.
    pub(crate) before: Vec<u64>,
    /// Whether the search may make more visits than the play: the graph is undirected, and not dense.
    pub(crate) leads: bool,
    /// How many visits the play had made when the search began.
    pub(crate) alone: u64,
    /// How many the search makes before the play has turns, but for two for each of these.
    pub(crate) ahead: u64,
    /// How many the play has made since.
    pub(crate) beside: u64,
    /// At how many of these its turn ends.
    pub(crate) turn_end: u64,
    /// At how many of them it was judged last.
    pub(crate) judged: u64,
    /// How many chips waited to move then.
    pub(crate) waited: u64,
    /// How many visits the search has made.
    pub(crate) searched: u64,
}

impl Play<'_> {
    /// Goes on by this number of visits to a vertex or an edge; what it is at then, and whether it goes on. It has ended,
    /// or some vertex has fired, since one round is made at least. 2^64 - 1 visits take it to the end within the limit.
    /// `made` counts the visits: what begins a search, and a step of it, may take more than are left.
    #[tactic(auto, using(crate::proofs::VisitsLemmas::goes_after))]
    pub fn go_on<W: Watch>(
        &mut self,
        alloc: Global,
        course: Course,
        visits: u64,
        made: &mut u64,
        watch: &mut W,
    ) -> (Course, bool)
        requires course { IsCourse self.old.game self.old.chips self.old.fired course }
        requires none { made.old ≡ 0 }
        ensures same { self.new.game ≡ self.old.game }
        ensures course { IsCourse self.old.game self.new.chips self.new.fired result.0 }
        ensures round { GoesRound self.old.game self.old.fired self.new.chips self.new.fired result.1 }
        ensures at_most { made.new ≤ visits + 161 * places self.old.game }
        ensures whole { visits ≡ 2 ^ 64 - 1 → result.1 ≡ false }
    {
        let course = self.steps(alloc, course, visits, made, watch);
        match course {
            Course::Ended => {
                self.tell_end(watch);
                (Course::Ended, false)
            }
            Course::Stable => {
                self.tell_end(watch);
                (Course::Stable, false)
            }
            Course::Doubles(doubling) if visits != u64::MAX => {
                self.round_of(doubling, made, watch)
            }
            Course::Searches(searching) if visits != u64::MAX => {
                self.round_beside(searching, made, watch)
            }
            Course::WorkList(left) => (
                Course::WorkList(left),
                self.last_rounds(alloc, visits, made, watch),
            ),
            Course::FewChips(left) => (
                Course::FewChips(left),
                self.last_rounds(alloc, visits, made, watch),
            ),
            _ => (Course::Rounds, self.last_rounds(alloc, visits, made, watch)),
        }
    }

    /// Takes the steps of a course until it is rounds or has ended, or `visits` visits are made.
    #[tactic(auto, using(crate::proofs::PlayLemmas::rise_more))]
    fn steps<W: Watch>(
        &mut self,
        alloc: Global,
        course: Course,
        visits: u64,
        made: &mut u64,
        watch: &mut W,
    ) -> Course
        requires course { IsCourse self.old.game self.old.chips self.old.fired course }
        requires none { made.old ≡ 0 }
        ensures same { self.new.game ≡ self.old.game }
        ensures rises { OnlyRise self.old.fired self.new.fired }
        ensures course { IsCourse self.old.game self.new.chips self.new.fired result }
        ensures at_most { made.new ≤ visits + 160 * places self.old.game }
    {
        let mut course = course;
        'steps: for _ in 0..u64::MAX {
            if *made >= visits {
                return course;
            }
            let most = visits - *made;
            course = match course {
                Course::Begins => self.begin(alloc, most, made),
                Course::WorkList(left) => self.work_off_part(alloc, left, most, made),
                Course::FewChips(left) => self.play_part(alloc, left, most, made, watch),
                Course::Doubles(doubling) => self.double(alloc, doubling, most, made, watch),
                Course::Searches(searching) => self.search_on(alloc, searching, most, made, watch),
                Course::Rounds => return Course::Rounds,
                Course::Ended => return Course::Ended,
                Course::Stable => return Course::Stable,
            };
        }
        course
    }

    /// Makes rounds until one fires no vertex or `visits` visits are made, one round at least; whether each fired one.
    #[tactic(auto, using(crate::proofs::VisitsLemmas::goes_after))]
    fn last_rounds<W: Watch>(
        &mut self,
        alloc: Global,
        visits: u64,
        made: &mut u64,
        watch: &mut W,
    ) -> bool
        requires { made.old ≤ visits + 160 * places self.old.game }
        ensures same { self.new.game ≡ self.old.game }
        ensures round { GoesRound self.old.game self.old.fired self.new.chips self.new.fired result }
        ensures at_most { made.new ≤ visits + 161 * places self.old.game }
        ensures whole { visits ≡ 2 ^ 64 - 1 → result ≡ false }
    {
        let part = visits.saturating_sub(*made).min(STRETCH);
        if !self.stretch(alloc, part, made, watch) {
            return false;
        }
        'stretches: while *made < visits || visits == u64::MAX {
            let part = (visits - *made).min(STRETCH);
            if !self.stretch(alloc, part, made, watch) {
                return false;
            }
        }
        true
    }
}
