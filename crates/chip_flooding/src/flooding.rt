ghost use Rattle.std.specs.Prelude.{◌≡◌, ◌<◌, ◌≤◌, ℕ, true, false, Some, None, IfOk, IsTrue, replicate, slice_set, ◌↔◌};
ghost use Rattle.chip_flooding.specs.Running.{IsTopology, flood_network, net, world};
ghost use Rattle.chip_flooding.specs.Flooding.{MarksReached, IsFlooding, IsFlooded, due_on, unfinished};

use crate::process::Topology;
use crate::run::Run;
use std::alloc::{AllocError, Global};
use std::marker::Model;

/// A flood before its first message, with all the memory it needs.
///
/// The root sends a message on each of its edges. A process that gets its first message is marked, and does the same.
/// When the root's books say that this is over, exactly the reachable processes are marked.
#[derive(Drop)]
pub struct Flood {
    marking: Marking,
}

impl Model for Flood {
    ghost use Rattle.chip_flooding.specs.Running.{Topology};
    ghost use Rattle.chip_flooding.specs.Flooding.{IsUnmarked};

    ghost Value = { Topology };

    ghost view = { λ flood. flood.marking.run.topology };

    ghost invariant = { λ flood. IsUnmarked flood.marking };
}

impl Flood {
    /// Takes the memory for a flood of these processes and edges. Fails only without memory.
    pub fn opened(alloc: Global, topology: Topology) -> Result<Flood, AllocError>
        requires { IsTopology topology }
        ensures { IfOk result (λ flood. flood ≡ topology) }
    {
        let marked = all_false(alloc, topology.parts)?;
        let done = vec![in alloc; 0; topology.tails.len()]?;
        let run = Run::new(alloc, topology)?;
        let marking = Marking { run, marked, done };
        Ok(Flood { marking })
    }

    /// Floods; returns for each process whether it can be reached from the root over edges from tail to head.
    pub fn finish(self) -> Vec<bool>
        ensures { MarksReached (flood_network self) result.items }
    {
        let mut marking = self.marking;
        let root = marking.run.topology().root;
        marking.start(root);
        while !marking.run.is_over() {
            let edge = marking.due_edge().unwrap();
            marking.turn(edge);
        }
        marking.marked
    }
}

/// `count` times false.
fn all_false(alloc: Global, count: usize) -> Result<Vec<bool>, AllocError>
    ensures { IfOk result (λ list. list.items ≡ replicate count false) }
{
    vec![in alloc; false; count]
}

/// A running computation, and which processes are marked.
#[derive(Drop)]
struct Marking {
    run: Run,
    marked: Vec<bool>,
    /// The number of these done on each edge: getting a message and acknowledging it.
    done: Vec<u8>,
}

impl Marking {
    /// Marks the process, which sends a message on each of its edges and then has nothing to do.
    fn start(&mut self, part: usize)
        requires part { part < (net self.old.run).parts }
        requires active { (world self.old.run part).passive ≡ false }
        requires flooding { let old = self.old in IsFlooding (net old.run) (world old.run)
            (slice_set old.marked.items part true) old.done.items part 0 }
        ensures topology { self.new.run.topology ≡ self.old.run.topology }
        ensures flooded { IsFlooded self.new }
        ensures unfinished { unfinished self.new ≡ unfinished self.old }
    {
        self.marked[part] = true;
        for edge in 0..self.run.topology().tails.len() {
            if self.run.topology().tails[edge] == part {
                self.run.send(edge);
            }
        }
        self.run.rest(part);
    }

    /// The head gets the message on the edge, and starts if it is its first. If it has got it before, it acknowledges
    /// it.
    fn turn(&mut self, edge: usize)
        requires edge { edge < (net self.old.run).edges }
        requires due { 0 < due_on self.old edge }
        requires flooded { IsFlooded self.old }
        ensures topology { self.new.run.topology ≡ self.old.run.topology }
        ensures flooded { IsFlooded self.new }
        ensures less { unfinished self.new < unfinished self.old }
    {
        if self.done[edge] > 0 {
            let count = self.run.acknowledge(edge);
            self.run.settle(edge, count);
            self.done[edge] = 2;
            return;
        }
        self.done[edge] = 1;
        let head = self.run.topology().heads[edge];
        self.run.get(edge);
        if self.marked[head] {
            self.run.rest(head);
            return;
        }
        self.start(head);
    }

    /// An edge with something to get or to acknowledge.
    fn due_edge(&self) -> Option<usize>
        requires { IsFlooded self.now }
        ensures edge { (e : ℕ) → result ≡ Some e → e < (net self.now.run).edges }
        ensures due { (e : ℕ) → result ≡ Some e → 0 < due_on self.now e }
        ensures none { result ≡ None → (e : ℕ) → e < (net self.now.run).edges → due_on self.now e ≡ 0 }
    {
        (0..self.done.len()).find(|edge| self.is_due(*edge))
    }

    /// Whether there is something to get or to acknowledge on the edge.
    fn is_due(&self, edge: usize) -> bool
        requires edge { edge < (net self.now.run).edges }
        requires flooded { IsFlooded self.now }
        ensures { IsTrue result ↔ (0 < due_on self.now edge) }
    {
        if self.done[edge] > 0 {
            return self.run.acknowledgeable(edge) > 0;
        }
        self.marked[self.run.topology().tails[edge]]
    }
}
