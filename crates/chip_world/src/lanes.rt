ghost use Rattle.std.specs.Prelude.{◌≡◌, ◌<◌, ◌≤◌, [], ◌∷◌, ◌++◌, length, map, IfOk};
ghost use Rattle.std.specs.Vec.{vec_capacity};

use chip_link::Message;
use std::alloc::{AllocError, Global};
use std::marker::Model;

/// Lists of messages by edge, with reserved room for them.
#[derive(Drop)]
pub(crate) struct Lanes {
    lists: Vec<Vec<Message>>,
}

impl Model for Lanes {
    ghost use Rattle.std.specs.Prelude.{List, map};
    ghost use Rattle.std.specs.Vec.{vec_capacity};
    ghost use Rattle.chip_world.specs.Lanes.{Lane};

    ghost Value = { List Lane };

    ghost view = { λ a. map (λ v. record { messages = v.items; capacity = vec_capacity v }) a.lists.items };
}

impl Lanes {
    ghost use Rattle.chip_world.specs.Lanes.{lane_at, with_message};

    /// No edges yet.
    pub(crate) fn new(alloc: Global) -> Lanes
        ensures { result ≡ [] }
    {
        Lanes {
            lists: Vec::new(alloc),
        }
    }

    /// Appends an edge with these messages.
    pub(crate) fn add(&mut self, messages: Vec<Message>) -> Result<(), AllocError>
        ensures { IfOk result (λ _. self.new ≡ self.old
            ++ record { messages = messages.items; capacity = vec_capacity messages } ∷ []) }
    {
        self.lists.push(messages)?;
        Ok(())
    }

    /// Appends a message of an edge, for which there is room.
    pub(crate) fn push(&mut self, edge: u64, message: Message)
        requires edge { edge < length self.old }
        requires room { length (lane_at self.old edge).messages < (lane_at self.old edge).capacity }
        ensures { self.new ≡ with_message edge message self.old }
    {
        self.lists[edge as usize].push_reserved(message);
    }

    /// The lists of messages.
    pub(crate) fn into_lists(self) -> Vec<Vec<Message>>
        ensures { map (λ t. t.items) result.items ≡ map (λ lane. lane.messages) self }
    {
        self.lists
    }
}
