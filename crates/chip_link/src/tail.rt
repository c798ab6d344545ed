ghost use Rattle.std.specs.Prelude.{◌≡◌, ℕ, ◌^◌, ◌<◌, ◌≤◌, ◌&&◌, ◌==◌, ◌↔◌, IsTrue, IsNone, IsSome, IfSome};
ghost use Rattle.chip_link.specs.Rings.{IsRing};
ghost use Rattle.chip_link.specs.Words.{claims_in, is_sealed_in};
ghost use Rattle.chip_link.specs.Ends.{TailState, new_tail, tail_cell, may_clear, tail_after_clear, claim_words};
ghost use Rattle.chip_link.specs.Ends.{tail_after_claim, message_claimed, put_of, tail_after_put, max_count, place_for};

use crate::message::Message;
use crate::ring::Ring;
use std::marker::Model;

/// The end of an edge that sends. For each message it reads the cell of the next place (`cell`, `cleared`), claims that
/// place (`claim_next`, `claimed`) and stores the count in the cell (`put_value`).
#[derive(Drop)]
pub struct TailLink {
    edge: u64,
    claims: u64,
    // The chips of the message claimed and not put, if there is one. They are next to the stage, so that the stage is a
    // byte.
    count: u64,
    stage: Stage,
    ring: Ring,
    // The cell of the next place, counted round.
    cell: u8,
}

/// The stage of the next message at the tail.
#[derive(Drop)]
enum Stage {
    /// Nothing is under way.
    Idle,
    /// The cell of the next place was seen empty.
    Clear,
    /// A message is claimed and not put.
    Held,
    /// A seal refused a claim: nothing more is sent.
    Refused,
}

/// No place from this number on is claimed, so a count of claims never reaches the seal's bit.
const MOST_CLAIMS: u64 = 1 << 62;

impl Model for TailLink {
    ghost use Rattle.std.specs.Prelude.{◌≡◌, ◌%◌, ◌<◌, ◌≤◌};
    ghost use Rattle.chip_link.specs.Ends.{TailState};

    ghost Value = { TailState };

    ghost use Rattle.chip_link.specs.Stage.{held_count, is_clear, is_refused, HasClaims};

    ghost view = { λ a. record {
      edge = a.edge;
      ring = a.ring;
      claims = a.claims;
      held = held_count a.stage a.count;
      clear = is_clear a.stage;
      refused = is_refused a.stage;
    } };

    ghost invariant = { λ a. HasClaims a.stage a.claims × (a.cell ≡ a.claims % a.ring) × (a.cell < a.ring) };
}

impl TailLink {
    /// The tail of an edge on which nothing was sent, whose ring has `ring` cells, 1 to 64.
    pub fn new(edge: u64, ring: u64) -> TailLink
        requires { IsRing ring }
        ensures { result ≡ new_tail edge ring }
    {
        TailLink {
            edge,
            claims: 0,
            count: 0,
            stage: Stage::Idle,
            ring: Ring::of(ring),
            cell: 0,
        }
    }

    /// The number of its edge.
    pub fn edge(&self) -> u64
        ensures { result ≡ self.now.edge }
    {
        self.edge
    }

    /// The cell of the next place to claim, 0 to below the cells of the ring.
    pub fn cell(&self) -> u64
        ensures cell { result ≡ tail_cell self.now }
        ensures inside { result < self.now.ring }
    {
        u64::from(self.cell)
    }

    /// Notes the contents of that cell; returns whether a claim may follow. It may not, and nothing changes, while a
    /// message is claimed and not put, after a refusal, and after 2^62 claims.
    pub fn cleared(&mut self, old_cell: u64) -> bool
        ensures answer { result ≡ (may_clear self.old && old_cell == 0) }
        ensures after { self.new ≡ tail_after_clear old_cell self.old }
    {
        match self.stage {
            Stage::Idle | Stage::Clear => {
                let is_clear = old_cell == 0 && self.claims < MOST_CLAIMS;
                self.stage = if is_clear { Stage::Clear } else { Stage::Idle };
                is_clear
            }
            Stage::Held | Stage::Refused => false,
        }
    }

    /// The word that the next claim expects and the word that it leaves. `None` unless the cell was seen empty.
    pub fn claim_next(&self) -> Option<(u64, u64)>
        ensures words { result ≡ claim_words self.now }
        ensures small { IfSome result (λ words. words.0 < 2 ^ 62) }
    {
        match self.stage {
            Stage::Clear => Some((self.claims, self.claims + 1)),
            Stage::Idle | Stage::Held | Stage::Refused => None,
        }
    }

    /// Notes the word that the claim's exchange found, for a message of `count` chips, 1 to 2^40. If it was the
    /// expected word, the message is sent. Else the edge is sealed, and the tail notes the refusal.
    pub fn claimed(&mut self, old_word: u64, count: u64) -> Option<Message>
        requires clear { IsTrue self.old.clear }
        requires word { claims_in old_word ≡ self.old.claims }
        requires count { (1 ≤ count) × (count ≤ max_count) }
        ensures message { result ≡ message_claimed old_word count self.old }
        ensures after { self.new ≡ tail_after_claim old_word count self.old }
        ensures refused { IsNone result ↔ IsTrue (is_sealed_in old_word) }
    {
        if old_word != self.claims {
            self.stage = Stage::Refused;
            return None;
        }
        let place = self.claims;
        self.claims = place + 1;
        self.cell = self.ring.after(self.cell);
        self.count = count;
        self.stage = Stage::Held;
        Some(Message {
            edge: self.edge,
            place,
            count,
        })
    }

    /// The next place to claim if its cell has these contents, or `None` if no claim may follow. Changes nothing.
    pub fn place_for(&self, old_cell: u64) -> Option<u64>
        ensures place { result ≡ place_for old_cell self.now }
        ensures small { IfSome result (λ place. place < 2 ^ 62) }
    {
        match self.stage {
            Stage::Idle | Stage::Clear if old_cell == 0 && self.claims < MOST_CLAIMS => {
                Some(self.claims)
            }
            _ => None,
        }
    }

    /// Notes a whole send at once: the cell of the next place was seen empty, the place claimed, and the message put
    /// into the cell.
    pub fn sent(&mut self)
        requires { IsSome (place_for 0 self.old) }
        ensures { (count : ℕ)
            → self.new ≡ tail_after_put (tail_after_claim self.old.claims count (tail_after_clear 0 self.old)) }
    {
        self.claims += 1;
        self.cell = self.ring.after(self.cell);
        self.stage = Stage::Idle;
    }

    /// The cell and the value of the message claimed and not put, if there is one.
    pub fn held(&self) -> Option<(u64, u64)>
        ensures value { result ≡ put_of self.now }
        ensures inside { IfSome result (λ stored. stored.0 < self.now.ring) }
    {
        match self.stage {
            Stage::Held => Some((u64::from(self.ring.before(self.cell)), self.count)),
            Stage::Idle | Stage::Clear | Stage::Refused => None,
        }
    }

    /// Returns the cell and the value to store in it, and notes that it is stored. `None` unless a message is claimed
    /// and not put.
    pub fn put_value(&mut self) -> Option<(u64, u64)>
        ensures value { result ≡ put_of self.old }
        ensures inside { IfSome result (λ stored. stored.0 < self.old.ring) }
        ensures after { self.new ≡ tail_after_put self.old }
    {
        let stored = self.held()?;
        self.stage = Stage::Idle;
        Some(stored)
    }

    /// Whether a seal refused a claim. After that nothing more is sent.
    pub fn refused(&self) -> bool
        ensures { result ≡ self.now.refused }
    {
        match self.stage {
            Stage::Refused => true,
            Stage::Idle | Stage::Clear | Stage::Held => false,
        }
    }
}
