//! A writer that is slow and fails.

use std::io;
use std::io::Write;
use std::process::Abort;

/// Takes one byte at each write, up to the write with this index. That one fails, or takes none; and so do those after
/// it if it `stays` so.
#[derive(Drop)]
pub(crate) struct Faulty {
    pub taken: Vec<u8>,
    pub writes: usize,
    index: usize,
    fails: bool,
    stays: bool,
}

impl Faulty {
    pub(crate) fn new(
        rt: &(impl AllocGlobal + Abort),
        index: usize,
        fails: bool,
        stays: bool,
    ) -> Faulty {
        Faulty {
            taken: Vec::new(rt.alloc()),
            writes: 0,
            index,
            fails,
            stays,
        }
    }

    fn takes(&self, write: usize) -> bool {
        write < self.index || (write > self.index && !self.stays)
    }
}

impl Write for Faulty {
    fn write(&mut self, bytes: &[u8]) -> io::Result<usize> {
        let write = self.writes;
        self.writes = write.saturating_add(1);
        match bytes.first() {
            Some(byte) if self.takes(write) => {
                self.taken.push(*byte)?;
                Ok(1)
            }
            _ if self.fails && self.stays => Err(io::Error::from(io::ErrorKind::Other)),
            _ if self.fails => Err(io::Error::from(io::ErrorKind::Interrupted)),
            _ => Ok(0),
        }
    }

    fn flush(&mut self) -> io::Result<()> {
        Ok(())
    }
}
