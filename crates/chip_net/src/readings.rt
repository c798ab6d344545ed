ghost use Rattle.std.specs.Prelude.{◌≡◌, ◌<◌, IfOk};
ghost use Rattle.chip_net.specs.Finish.{no_readings, readings_after};

use chip_link::FiredWord;
use std::alloc::{AllocError, Global};
use std::marker::Model;

/// The contents of the fired words, by ascending vertex, and room for chips. All memory is taken at the start.
#[derive(Drop)]
pub(crate) struct Readings {
    pub(crate) fired: Vec<u64>,
    pub(crate) over: Vec<u64>,
    pub(crate) sealed: Vec<u64>,
    pub(crate) chips: Vec<u64>,
}

impl Model for Readings {
    ghost use Rattle.std.specs.Prelude.{◌-◌, ◌≤◌, length};
    ghost use Rattle.std.specs.Vec.{vec_capacity};
    ghost use Rattle.chip_net.specs.Finish.{ReadingsState};

    ghost Value = { ReadingsState };

    ghost view = { λ a. record {
      fired = a.fired.items;
      over = a.over.items;
      sealed = a.sealed.items;
      room = length a.chips.items - length a.fired.items;
    } };

    ghost invariant = { λ a. (length a.fired.items ≤ length a.chips.items)
        × (length a.chips.items ≤ vec_capacity a.fired)
        × (length a.over.items ≤ length a.fired.items) × (length a.chips.items ≤ vec_capacity a.over)
        × (length a.sealed.items ≤ length a.fired.items) × (length a.chips.items ≤ vec_capacity a.sealed) };
}

impl Readings {
    /// No readings yet, with room for `room` vertices.
    pub(crate) fn new(alloc: Global, room: usize) -> Result<Readings, AllocError>
        ensures { IfOk result (λ readings. readings ≡ no_readings room) }
    {
        Ok(Readings {
            fired: Vec::with_capacity(alloc, room)?,
            over: Vec::with_capacity(alloc, room)?,
            sealed: Vec::with_capacity(alloc, room)?,
            chips: vec![in alloc; 0; room]?,
        })
    }

    /// Appends the reading of the next vertex.
    pub(crate) fn note(&mut self, word: FiredWord)
        requires { 0 < self.old.room }
        ensures { self.new ≡ readings_after word.fired word.halted word.by_limit self.old }
    {
        let vertex = self.fired.len() as u64;
        self.fired.push_reserved(word.fired);
        if word.by_limit {
            self.over.push_reserved(vertex);
        }
        if word.halted && !word.by_limit {
            self.sealed.push_reserved(vertex);
        }
    }
}
