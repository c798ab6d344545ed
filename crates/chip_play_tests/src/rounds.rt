//! The steps of a play, each by itself: what no contract says of `chip_fire`.

use crate::fire::{END, one_more};
use crate::games::{TRIANGLE, game_of};
use chip_fire::{Play, make_rounds};

/// Of 5 chips vertex 0 of the triangle fires twice in the first round, and vertex 1 what it got of them.
#[test]
fn one_round(rt: HostRuntime) {
    let game = game_of(&rt, TRIANGLE, &[5, 0, 0], 1 << 40);
    let play = Play::new(rt.alloc(), &game).expect(&rt, "memory");
    let Play {
        game,
        mut chips,
        mut fired,
    } = play;
    let mut turns = 0;
    let made = make_rounds(game, 1, &mut chips, &mut fired, &mut turns);
    assert!(rt; made == 1 && turns == 2);
    assert!(rt;
        chips.as_slice() == [2, 0, 3].as_slice() && fired.as_slice() == [2, 1, 0].as_slice()
    );
}

/// In the second round vertex 0 has two chips again, and fires once. Then the play is at rest.
#[test]
fn rounds_until_none_fires(rt: HostRuntime) {
    let game = game_of(&rt, TRIANGLE, &[5, 0, 0], 1 << 40);
    let play = Play::new(rt.alloc(), &game).expect(&rt, "memory");
    let Play {
        game,
        mut chips,
        mut fired,
    } = play;
    let mut turns = 0;
    let made = make_rounds(game, 8, &mut chips, &mut fired, &mut turns);
    assert!(rt; made == 2 && turns == 3);
    if made < 8 {
        let play = Play { game, chips, fired };
        let outcome = play.outcome(rt.alloc()).expect(&rt, "memory");
        assert!(rt;
            outcome.chips.as_slice() == [0, 1, 4].as_slice()
                && outcome.fired.as_slice() == [3, 1, 0].as_slice()
        );
        assert!(rt; outcome.over.is_empty() && outcome.sealed.is_empty());
    }
}

/// By a limit of 2 the same play is at rest after the first round, with vertex 0 legal still. Turns end at 2^64 - 1.
#[test]
fn rounds_up_to_the_limit(rt: HostRuntime) {
    let game = game_of(&rt, TRIANGLE, &[5, 0, 0], 2);
    let play = Play::new(rt.alloc(), &game).expect(&rt, "memory");
    let Play {
        game,
        mut chips,
        mut fired,
    } = play;
    let mut turns = u64::MAX - 1;
    let made = make_rounds(game, 2, &mut chips, &mut fired, &mut turns);
    assert!(rt; made == 1 && turns == u64::MAX);
    if made < 2 {
        let play = Play { game, chips, fired };
        let outcome = play.outcome(rt.alloc()).expect(&rt, "memory");
        assert!(rt;
            outcome.over.as_slice() == [0].as_slice()
                && outcome.fired.as_slice() == [2, 1, 0].as_slice()
        );
    }
}

/// If the first vertex of a path with one chip each has one more, each vertex fires once: in as many turns as it has
/// vertices, since a turn has no more visits than 16. On the triangle no vertex is few, and nothing is done.
#[test]
fn work_lists(rt: HostRuntime) {
    let game = one_more(&rt, 1);
    let mut play = Play::new(rt.alloc(), &game).expect(&rt, "memory");
    let mut visits = 0u64;
    play.work_off_few(rt.alloc(), 16 * END, &mut visits)
        .expect(&rt, "memory");
    assert!(rt;
        play.fired
            .iter()
            .take(END as usize)
            .all(|times| *times == 1)
    );
    assert!(rt; END <= visits && visits <= 16 * END);
    let game = game_of(&rt, TRIANGLE, &[4, 0, 0], 1 << 40);
    let mut play = Play::new(rt.alloc(), &game).expect(&rt, "memory");
    play.work_off_few(rt.alloc(), 16, &mut visits)
        .expect(&rt, "memory");
    assert!(rt;
        play.chips.as_slice() == [4, 0, 0].as_slice()
            && play.fired.as_slice() == [0, 0, 0].as_slice()
    );
}
