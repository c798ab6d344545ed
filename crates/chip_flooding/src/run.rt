ghost use Rattle.std.specs.Prelude.{◌≡◌, ◌↔◌, ◌<◌, false, IfOk, IsTrue};

use crate::process::{Process, Topology, opening};
use chip_diffusing::{acknowledge, is_over};
use std::alloc::{AllocError, Global};
use std::marker::Model;

/// A diffusing computation on one thread: each process with its books. Each call is one event of a legal log
/// (`crates/chip_diffusing/specs/Computation.antt`). The caller keeps the messages in transit, their contents and the
/// state of the processes.
#[derive(Drop)]
pub struct Run {
    topology: Topology,
    processes: Vec<Process>,
}

impl Model for Run {
    ghost use Rattle.chip_flooding.specs.Running.{State, IsLegalState};

    ghost Value = { State };

    ghost view = { λ a. record { topology = a.topology; processes = a.processes.items } };

    ghost invariant = { λ a. IsLegalState (record { topology = a.topology; processes = a.processes.items }) };
}

impl Run {
    ghost use Rattle.chip_diffusing.specs.Computation.{Send, Get, Ack, Settle, Work, May, HasClosedRoot, IsQuiescent};
    ghost use Rattle.chip_flooding.specs.Running.{IsTopology, IsLegalState, AreOpeningProcesses, Runs, net, world, allowed};

    /// A computation before its first message. Only the root is at work.
    pub fn new(alloc: Global, topology: Topology) -> Result<Run, AllocError>
        requires { IsTopology topology }
        ensures same { IfOk result (λ run. run.topology ≡ topology) }
        ensures opens { IfOk result (λ run. AreOpeningProcesses topology topology.parts run.processes) }
    {
        let mut processes = Vec::new(alloc);
        for part in 0..topology.parts {
            processes.push(opening(alloc, &topology, part)?)?;
        }
        Ok(Run {
            topology,
            processes,
        })
    }

    /// The processes and edges.
    pub fn topology(&self) -> &Topology
        ensures same { result.now ≡ self.now.topology }
        ensures topology { IsTopology result.now }
    {
        &self.topology
    }

    /// Sends a message on the edge.
    pub fn send(&mut self, edge: usize)
        requires { May (net self.old) (world self.old) (Send edge) }
        ensures runs { Runs self.old (Send edge) self.new }
        ensures active { (world self.new ((net self.old).tail edge)).passive ≡ false }
    {
        let tail = self.topology.tails[edge];
        self.processes[tail].books.sent(edge as u64);
    }

    /// Takes a message from the edge: its head is at work from then on.
    pub fn get(&mut self, edge: usize)
        requires { May (net self.old) (world self.old) (Get edge) }
        ensures runs { Runs self.old (Get edge) self.new }
        ensures active { (world self.new ((net self.old).head edge)).passive ≡ false }
    {
        let head = self.topology.heads[edge];
        let process = &mut self.processes[head];
        process.books.got(edge as u64);
        process.passive = false;
    }

    /// The number of messages of the edge that may be acknowledged now.
    pub fn acknowledgeable(&self, edge: usize) -> u64
        requires { edge < (net self.now).edges }
        ensures { result ≡ allowed self.now edge }
    {
        let head = &self.processes[self.topology.heads[edge]];
        head.books.may_ack(edge as u64, head.passive)
    }

    /// Acknowledges all messages of the edge that may be acknowledged now; returns their number.
    pub fn acknowledge(&mut self, edge: usize) -> u64
        requires { edge < (net self.old).edges }
        ensures count { result ≡ allowed self.old edge }
        ensures runs { Runs self.old (Ack edge result) self.new }
    {
        let head = self.topology.heads[edge];
        let process = &mut self.processes[head];
        acknowledge(&mut process.books, edge as u64, process.passive)
    }

    /// Notes at the tail of the edge that its head has acknowledged `word` messages in all.
    pub fn settle(&mut self, edge: usize, word: u64)
        requires { May (net self.old) (world self.old) (Settle edge word) }
        ensures { Runs self.old (Settle edge word) self.new }
    {
        let tail = self.topology.tails[edge];
        let _ = self.processes[tail].books.settled(edge as u64, word);
    }

    /// Notes that the process has nothing to do until a message comes.
    pub fn rest(&mut self, part: usize)
        requires { part < (net self.old).parts }
        ensures runs { Runs self.old (Work part) self.new }
        ensures passive { IsTrue (world self.new part).passive }
    {
        self.processes[part].passive = true;
    }

    /// Whether the root may report that the computation is over.
    pub fn is_over(&self) -> bool
        ensures closed { IsTrue result ↔ HasClosedRoot (net self.now) (world self.now) }
        ensures quiescent { IsTrue result → IsQuiescent (net self.now) (world self.now) }
        ensures run { IsLegalState self.now }
    {
        let root = &self.processes[self.topology.root];
        is_over(&root.books, root.passive)
    }
}
