ghost use Rattle.std.specs.Prelude.{◌≡◌, ◌<◌, true, length};
ghost use Rattle.chip_link.specs.Words.{is_fired_word};
ghost use Rattle.chip_net.specs.Roots.{IsRootOver};
ghost use Rattle.chip_net.specs.Finish.{ReadsAt, IsReading, no_readings};
ghost use Rattle.chip_net.specs.Meeting.{AreInPlace, Together};

use crate::actor::{Actor, meet};
use crate::layout::fired_word;
use crate::net::Net;
use crate::readings::Readings;
use crate::rule::PartSeat;
use chip_link::FiredWord;
use chip_part::Setting;
use std::marker::{Brand, Model};
use std::snapshot::Snapshot;

/// The root's token after it has read all counts. Contracts see the root's steps.
#[derive(Drop)]
pub struct Receipt {
    seat: PartSeat,
    setting: Snapshot<Setting>,
}

impl Model for Receipt {
    ghost use Rattle.chip_part.specs.Edges.{root};
    ghost use Rattle.chip_part.specs.Setting.{IsSetting};
    ghost use Rattle.chip_net.specs.Views.{HasPart};
    ghost use Rattle.chip_net.specs.Roots.{RootKnown, known_root};

    ghost Value = { RootKnown };

    ghost view = { λ a. known_root a.seat.table_id a.setting.value a.seat.me.0 };

    ghost invariant = { λ a. HasPart (root a.setting.value) a.seat.me.0 × IsSetting a.setting.value };
}

impl Receipt {
    ghost use Rattle.chip_part.specs.Edges.{root};
    ghost use Rattle.chip_part.specs.Setting.{IsSetting};
    ghost use Rattle.chip_net.specs.Views.{HasPart};
    ghost use Rattle.chip_net.specs.Roots.{known_root};

    pub(crate) fn new(seat: PartSeat, setting: Snapshot<Setting>) -> Receipt
        requires has { HasPart (root setting.value) seat.me.0 }
        requires setting { IsSetting setting.value }
        ensures { result ≡ known_root seat.table_id setting.value seat.me.0 }
    {
        Receipt { seat, setting }
    }

    /// Shows that one log has the steps of the actors of all vertices; changes nothing.
    pub fn meet(&mut self, net: &Net, actors: &mut Vec<Actor>)
        requires net { self.old.net ≡ net.now }
        requires actors { AreInPlace net.now actors.old.items }
        requires count { length actors.old.items ≡ net.now.setting.game.graph.vertices }
        ensures same { (self.new ≡ self.old) × (actors.new.items ≡ actors.old.items) }
        ensures together { Together self.old actors.old.items }
    {
        meet(net, &mut self.seat, actors);
    }

    /// Reads the fired word of a vertex.
    fn read(&mut self, net: &Net, vertex: u64) -> u64
        requires net { self.old.net ≡ net.now }
        requires vertex { vertex < self.old.net.setting.game.graph.vertices }
        requires over { IsRootOver self.old }
        ensures reads { ReadsAt self.old self.new vertex result }
        ensures word { is_fired_word result ≡ true }
    {
        let seat = &mut self.seat;
        let word = fired_word(net.setting(), vertex);
        net.words().load::<Brand>(seat, word)
    }

    /// Reads every fired word once, by ascending vertex.
    pub(crate) fn read_all(&mut self, net: &Net, mut readings: Readings) -> Readings
        requires net { self.old.net ≡ net.now }
        requires over { IsRootOver self.old }
        requires readings { readings ≡ no_readings self.old.net.setting.game.graph.vertices }
        ensures { IsReading self.old self.new result self.old.net.setting.game.graph.vertices }
    {
        for vertex in 0..net.setting().vertices() {
            let word = FiredWord::from_word(self.read(net, vertex));
            readings.note(word.unwrap());
        }
        readings
    }
}
