//! The rule of the table, and the ghost arguments of its steps.

use crate::views::View;
use atomic_table::{Join, Play, Seat, Shared, Split, Table, TableRule};
use chip_part::Setting;
use std::alloc::Global;
use std::marker::{Brand, PhantomData};
use std::snapshot::Snapshot;

/// Some legal log of the core leaves these words and views.
pub struct NetRule;

impl TableRule<(), View, Snapshot<Setting>> for NetRule {
    ghost use Rattle.chip_net.specs.Rule.{Kept};
    ghost use Rattle.chip_net.specs.Views.{opening_view};

    ghost holds = { λ key s. Kept key.value s };

    ghost first = { λ key. opening_view key.value };
}

/// The table of all words, under the rule.
pub(crate) type WordTable = Table<(), View, Snapshot<Setting>, NetRule, Global>;

/// Its words, which change in single atomic steps.
pub(crate) type SharedWords = Shared<(), View, Snapshot<Setting>, NetRule>;

/// A seat at the words; its view has the parts that its owner may act for.
pub(crate) type PartSeat = Seat<(), View>;

// The ghost data of a step: the proof of each call picks it.
impl Play<(), View> for Brand {
    ghost then = { λ _ _ _ _. Unit {0} };
}

/// A part that moves to a seat of its own.
pub(crate) trait OnePart {
    ghost use Rattle.std.specs.Prelude.{ℕ};

    ghost part: { ℕ };
}

impl OnePart for Brand {
    ghost part = { 0 };
}

/// Moves a part to a seat of its own.
pub(crate) struct TakeOut<J> {
    of: PhantomData<J>,
}

impl<J: OnePart> Split<View> for TakeOut<J> {
    ghost use Rattle.chip_net.specs.Views.{view_without, view_of_one};

    ghost left = { view_without J.part };

    ghost right = { view_of_one J.part };
}

/// Moves the parts of another seat to this one.
pub(crate) struct TakeIn;

impl Join<View> for TakeIn {
    ghost use Rattle.chip_net.specs.Views.{join_views, no_parts};

    ghost both = { join_views };

    ghost spent = { no_parts };
}
