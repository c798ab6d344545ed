//! What each engine reports to its watcher, by hand on the triangle.

use crate::engines::{NO_LIMIT, PLAYED, STOPPED, TRIANGLE, WENT_ON, closed};
use chip_command::{Ended, Fault};
use chip_engine::{
    PlayOptions, avalanches_engine_with, plain_engine_with, plain_guess_engine_with,
    resume_engine_with, verify_engine_with,
};
use chip_fire::{GivenUse, Play, Watch};
use chip_graph::Game;
use std::alloc::Global;

/// Three firings: two of vertex 0, and one of vertex 1.
const CHIPS: &str = "vertex,chips\n0,4\n";

/// Their counts.
const COUNTS: &str = "vertex,fired\n0,2\n1,1\n";

/// What a watcher saw.
#[derive(Clone, Copy, PartialEq, Eq)]
struct Told {
    /// The number of vertices of the game that is played.
    vertices: u64,
    /// What became of given counts.
    given: Option<GivenUse>,
    /// The firings of all vertices at the last report.
    firings: u64,
    /// The number of bytes of the report.
    bytes: u64,
}

const NOTHING: Told = Told {
    vertices: 0,
    given: None,
    firings: 0,
    bytes: 0,
};

/// The play of four chips.
const PLAY: Told = Told {
    vertices: 3,
    firings: 3,
    ..NOTHING
};

impl Watch for Told {
    fn plays(&mut self, game: &Game) {
        self.vertices = game.graph().vertices();
    }

    fn used(&mut self, _play: &Play<'_>, _given: &[u64], given_use: GivenUse) {
        self.given = Some(given_use);
    }

    fn rounds(&mut self, _more: u64, play: &Play<'_>) {
        self.firings = 0;
        for count in &play.fired {
            self.firings = self.firings.saturating_add(*count);
        }
    }

    fn writes(&mut self, bytes: u64) {
        self.bytes = bytes;
    }
}

/// The result of `plain`, with a guess if there is one, and what it reports.
fn plain(alloc: Global, guess: Option<&str>) -> (Result<Ended, Fault>, Told) {
    let (graph, chips) = (&mut TRIANGLE.as_bytes(), &mut CHIPS.as_bytes());
    let options = PlayOptions::standard(NO_LIMIT);
    let (mut told, mut output) = (NOTHING, Vec::new(alloc));
    let (watch, output) = (&mut told, &mut output);
    let ended = match guess {
        None => plain_engine_with(alloc, graph, chips, options, watch, output),
        Some(guess) => {
            let guess = &mut guess.as_bytes();
            plain_guess_engine_with(alloc, graph, chips, guess, options, watch, output)
        }
    };
    (ended, told)
}

#[test]
fn plain_reports_its_game_its_play_and_its_report(rt: HostRuntime) {
    let played = Told {
        bytes: PLAYED.len() as u64,
        ..PLAY
    };
    assert!(rt; plain(rt.alloc(), None) == (closed(0), played));
    let certified = Told {
        given: Some(GivenUse::Certified),
        ..played
    };
    assert!(rt; plain(rt.alloc(), Some(COUNTS)) == (closed(0), certified));
}

#[test]
fn resume_reports_its_stage(rt: HostRuntime) {
    let (mut told, mut output) = (NOTHING, Vec::new(rt.alloc()));
    let (graph, report) = (&mut TRIANGLE.as_bytes(), &mut STOPPED.as_bytes());
    let options = PlayOptions::standard(NO_LIMIT);
    let ended = resume_engine_with(rt.alloc(), graph, report, options, &mut told, &mut output);
    assert!(rt; ended == closed(0));
    let stage = Told {
        vertices: 3,
        firings: 1,
        bytes: WENT_ON.len() as u64,
        given: None,
    };
    assert!(rt; told == stage);
}

#[test]
fn verify_reports_the_counts_of_the_report(rt: HostRuntime) {
    let (mut told, mut output) = (NOTHING, Vec::new(rt.alloc()));
    let (graph, chips, report) = (
        &mut TRIANGLE.as_bytes(),
        &mut CHIPS.as_bytes(),
        &mut PLAYED.as_bytes(),
    );
    let options = PlayOptions::standard(NO_LIMIT);
    let ended = verify_engine_with(
        rt.alloc(),
        graph,
        chips,
        report,
        options,
        &mut told,
        &mut output,
    );
    assert!(rt; ended == closed(0));
    let certified = Told {
        given: Some(GivenUse::Certified),
        ..PLAY
    };
    assert!(rt; told == certified);
}

#[test]
fn avalanches_reports_its_play_and_its_report(rt: HostRuntime) {
    let (mut told, mut rows) = (NOTHING, Vec::new(rt.alloc()));
    let report = &mut Some(Vec::new(rt.alloc()));
    let (graph, chips, drops) = (
        &mut TRIANGLE.as_bytes(),
        &mut CHIPS.as_bytes(),
        &mut "vertex,chips\n".as_bytes(),
    );
    let options = PlayOptions::standard(NO_LIMIT);
    let ended = avalanches_engine_with(
        rt.alloc(),
        graph,
        chips,
        drops,
        options,
        &mut told,
        &mut rows,
        report,
    );
    assert!(rt; ended == closed(0));
    let played = Told {
        bytes: PLAYED.len() as u64,
        ..PLAY
    };
    assert!(rt; told == played);
}
