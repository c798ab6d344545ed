//! The data that all workers share.

use crate::plan::{Gate, Plan};
use crate::queue::Crew;
use chip_net::Net;
use std::marker::{Model, PhantomData};
use std::sync::atomic::AtomicBool;

/// The data that all workers share.
#[derive(Drop)]
pub(crate) struct Shared<'a, B: Crew, G: Gate> {
    /// The net.
    pub net: &'a Net,
    /// Whether the workers should stop.
    pub stop: &'a AtomicBool,
    /// The gate.
    pub gate: &'a G,
    /// The crew's plan.
    pub plan: &'a Plan,
    pub of: PhantomData<B>,
}

impl<'a, B: Crew, G: Gate> Model for Shared<'a, B, G> {
    ghost use Rattle.chip_crew.specs.Asked.{IsAsked};

    ghost Value = { Unit {0} };

    ghost view = { λ _. tt };

    ghost invariant = { λ s. IsAsked B.asked s.net.now s.plan.now (G.may_answer s.gate.now) };
}
