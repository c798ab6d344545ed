//! Where plays begin: at the given counts, if these are right. A watch counts the plays that begin at them and have
//! nothing left to do, and the rounds of all plays.

use crate::graphs::{TRIANGLE, told};
use chip_fire::{GivenUse, Play, Watch};
use chip_library::{stabilize_all_watched, verify_watched};
use std::process::Abort;

/// Counts of what plays did.
#[derive(Drop)]
struct Counted {
    certified: u64,
    rounds: u64,
}

impl Watch for Counted {
    fn used(&mut self, _play: &Play<'_>, _given: &[u64], given_use: GivenUse) {
        if given_use == GivenUse::Certified {
            self.certified = self.certified.saturating_add(1);
        }
    }

    fn rounds(&mut self, more: u64, _play: &Play<'_>) {
        self.rounds = self.rounds.saturating_add(more);
    }
}

/// The greatest limit.
const LARGEST: u64 = 1 << 40;

/// Plays games with 6 and with 4 chips, and counts.
fn plays(rt: &(impl AllocGlobal + Abort), guesses: &[u64]) -> Counted {
    let mut chips = [6, 0, 0, 4, 0, 0];
    let (mut fired, mut stopped) = ([0; 6], [0; 2]);
    let mut counted = Counted {
        certified: 0,
        rounds: 0,
    };
    let done = stabilize_all_watched(
        rt.alloc(),
        TRIANGLE.edges(),
        LARGEST,
        guesses,
        &mut chips,
        &mut fired,
        &mut stopped,
        &mut counted,
    );
    assert!(rt; told(done) == (0, 0) && fired == [3, 1, 0, 2, 1, 0]);
    counted
}

#[test]
fn games_begin_at_their_guesses(rt: HostRuntime) {
    let from_zero = plays(&rt, &[]);
    assert!(&rt; from_zero.certified == 0 && from_zero.rounds > 0);
    let from_guesses = plays(&rt, &[3, 1, 0, 2, 1, 0]);
    assert!(&rt; from_guesses.certified == 2 && from_guesses.rounds == 0);
}

#[test]
fn a_claim_is_played_from_its_counts(rt: HostRuntime) {
    let mut counted = Counted {
        certified: 0,
        rounds: 0,
    };
    let done = verify_watched(
        rt.alloc(),
        TRIANGLE.edges(),
        LARGEST,
        &[6, 0, 0],
        &[3, 1, 0],
        &[1, 1, 4],
        &mut counted,
    );
    assert!(&rt; told(done) == (0, 0) && counted.certified == 1 && counted.rounds == 0);
}
