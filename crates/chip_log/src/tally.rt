ghost use Rattle.chip_log.specs.declared.row.Stream.{Stream};

use crate::row::Stream;
use std::alloc::{AllocError, Global};
use std::marker::Model;

/// A number for each stream.
#[derive(Drop)]
pub(crate) struct Tally {
    basic: Vec<u32>,
    control: Vec<u32>,
}

impl Model for Tally {
    ghost use Rattle.chip_log.specs.Tally.{TallyState, state_of, HasBoth};

    ghost Value = { TallyState };

    ghost view = { state_of };

    ghost invariant = { HasBoth };
}

impl Tally {
    ghost use Rattle.std.specs.Prelude.{◌≡◌, ◌+◌, ◌-◌, ◌^◌, ◌<◌, IfOk};
    ghost use Rattle.chip_log.specs.Tally.{count, IsMore, IsLess};

    /// 0 for each of `channels` channels.
    pub(crate) fn new(alloc: Global, channels: u32) -> Result<Tally, AllocError>
        ensures channels { IfOk result (λ tally. tally.channels ≡ channels) }
        ensures none { IfOk result (λ tally. (s : Stream) → count tally s ≡ 0) }
    {
        Ok(Tally {
            basic: vec![in alloc; 0; channels as usize]?,
            control: vec![in alloc; 0; channels as usize]?,
        })
    }

    /// The number of this stream.
    pub(crate) fn count(&self, stream: Stream) -> u32
        requires { stream.channel < self.now.channels }
        ensures { result ≡ count self.now stream }
    {
        if stream.is_control {
            self.control[stream.channel as usize]
        } else {
            self.basic[stream.channel as usize]
        }
    }

    /// Adds 1 to the number of this stream.
    pub(crate) fn add(&mut self, stream: Stream)
        requires is_stream { stream.channel < self.old.channels }
        requires room { count self.old stream + 1 < 2 ^ 32 }
        ensures { IsMore stream self.old self.new }
    {
        if stream.is_control {
            self.control[stream.channel as usize] += 1;
        } else {
            self.basic[stream.channel as usize] += 1;
        }
    }

    /// Takes 1 from the number of this stream.
    pub(crate) fn remove(&mut self, stream: Stream)
        requires is_stream { stream.channel < self.old.channels }
        requires some { 0 < count self.old stream }
        ensures { IsLess stream self.old self.new }
    {
        if stream.is_control {
            self.control[stream.channel as usize] -= 1;
        } else {
            self.basic[stream.channel as usize] -= 1;
        }
    }
}
