ghost use Rattle.std.specs.Prelude.{◌≡◌, ◌≢◌, ℕ, ◌<◌, [], None, IfOk};

use crate::open::opening_words;
use crate::rule::{OnePart, PartSeat, SharedWords, TakeIn, TakeOut, WordTable};
use chip_part::Setting;
use std::alloc::{AllocError, Global};
use std::marker::{Brand, Model};
use std::snapshot::Snapshot;

/// The words that the threads of a net share. A token may only be used with the net that opened it.
#[derive(Drop)]
pub struct Net {
    setting: Setting,
    table: WordTable,
}

impl Model for Net {
    ghost use Rattle.chip_net.specs.Tokens.{NetId};
    ghost use Rattle.chip_net.specs.Layout.{word_count};
    ghost use Rattle.chip_part.specs.Setting.{IsSetting};
    ghost use Rattle.std.specs.Prelude.{◌≡◌};

    ghost Value = { NetId };

    ghost view = { λ a. record { table = a.table.shared.table_id; setting = a.setting } };

    ghost invariant = { λ a. (a.table.shared.key.value ≡ a.setting)
        × (a.table.shared.table_id.words ≡ word_count a.setting) × IsSetting a.setting };
}

impl Net {
    ghost use Rattle.chip_part.specs.Setting.{IsSetting};
    ghost use Rattle.chip_net.specs.Tokens.{AreWordsOf};
    ghost use Rattle.chip_net.specs.Rule.{Looked};
    ghost use Rattle.chip_net.specs.Views.{find, HasPart, opening_view, IsAlone, join_views, no_parts};

    /// A net for this setting, as it opens, and the seat that has every part.
    pub(crate) fn lay_out(alloc: Global, setting: Setting) -> Result<(Net, PartSeat), AllocError>
        ensures net { IfOk result (λ r. r.0.setting ≡ setting) }
        ensures seat { IfOk result (λ r. (r.1.table_id ≡ r.0.table) × (r.1.me.0 ≡ opening_view r.0.setting)) }
    {
        let opening = opening_words(alloc, &setting)?;
        let _ring = setting.ring();
        let key = Snapshot::of(&setting);
        let (table, seat) = WordTable::of_words(alloc, &opening, &key)?;
        Ok((Net { setting, table }, seat))
    }

    /// The setting of the net: the game, the rings, and whether the root may feed.
    pub fn setting(&self) -> &Setting
        ensures value { result.now ≡ self.now.setting }
        ensures setting { IsSetting self.now.setting }
    {
        &self.setting
    }

    /// The shared words.
    pub(crate) fn words(&self) -> &SharedWords
        ensures { AreWordsOf self.now result.now.table_id result.now.key.value }
    {
        &self.table.shared
    }

    /// A seat of its own for a part, with all its steps.
    pub(crate) fn take_out<J: OnePart>(&self, seat: &mut PartSeat) -> PartSeat
        requires seat { seat.old.table_id ≡ self.now.table }
        requires part { HasPart J.part seat.old.me.0 }
        ensures same { seat.new.table_id ≡ seat.old.table_id }
        ensures gone { find J.part seat.new.me.0.parts ≡ None }
        ensures others { (p : ℕ) → J.part ≢ p → find p seat.new.me.0.parts ≡ find p seat.old.me.0.parts }
        ensures given { (result.table_id ≡ seat.old.table_id)
            × (find J.part result.me.0.parts ≡ find J.part seat.old.me.0.parts) }
        ensures alone { IsAlone J.part result.me.0 × (result.me.1 ≡ []) }
    {
        self.table.shared.split_seat::<TakeOut<J>>(seat)
    }

    /// A seat without parts.
    pub(crate) fn empty_seat(&self) -> PartSeat
        ensures empty { result.me ≡ (no_parts, []) }
        ensures some { 0 < self.now.table.words }
    {
        let (_, seat) = self.table.shared.load_new_seat::<Brand>(0);
        seat
    }

    /// Reads a word: one log has the steps of all parts of the seat.
    pub(crate) fn look(&self, seat: &mut PartSeat)
        requires seat { seat.old.table_id ≡ self.now.table }
        ensures same { (seat.new.table_id ≡ seat.old.table_id) × (seat.new.me ≡ seat.old.me) }
        ensures looked { Looked self.now.setting seat.old.me.0 }
    {
        let _ = self.table.shared.load::<Brand>(seat, 0);
    }

    /// Moves the part of another seat, its only one, to this seat.
    pub(crate) fn take_in(&self, seat: &mut PartSeat, other: PartSeat)
        requires seat { seat.old.table_id ≡ self.now.table }
        requires other { (other.table_id ≡ self.now.table) × (other.me.1 ≡ []) }
        requires part { (part : ℕ) × IsAlone part other.me.0 }
        ensures same { seat.new.table_id ≡ seat.old.table_id }
        ensures joined { seat.new.me ≡ (join_views seat.old.me.0 other.me.0, seat.old.me.1) }
    {
        self.table.shared.join_seat::<TakeIn>(seat, other);
    }
}
