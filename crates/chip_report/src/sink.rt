//! A writer of one output, which counts its writes.

ghost use Rattle.std.specs.Prelude.{◌≡◌, ◌+◌, ◌^◌, ◌<◌, true};
ghost use Rattle.std.specs.Io.{WritesAtMost};
ghost use Rattle.std.specs.Io.KnownBytes.{WriteAppends};
ghost use Rattle.chip_report.specs.Sink.{IsUnwritten, bytes_out, goes_on, last_write_by, last_write, writes};

use std::io;
use std::io::Write;

/// How the last write to an output went.
#[derive(Clone, Copy, Debug, PartialEq, Eq)]
pub enum LastWrite {
    /// No write was made yet.
    NotYet,
    /// It took bytes.
    Bytes,
    /// It took no byte.
    Nothing,
    /// It failed, or was interrupted.
    Failure,
}

/// A writer of one output, which counts its writes and notes how the last one went.
#[derive(Drop)]
pub struct Sink<'w, W> {
    writer: &'w mut W,
    writes: u64,
    last: LastWrite,
}

impl<'w, W: Write> Sink<'w, W> {
    /// A sink to which nothing was written yet.
    pub fn new(writer: &'w mut W) -> Sink<'w, W>
        ensures lent { result.writer.ghost_name ≡ writer.entry.ghost_name }
        ensures same { result.writer.now ≡ writer.old }
        ensures fresh { IsUnwritten result }
    {
        Sink {
            writer,
            writes: 0,
            last: LastWrite::NotYet,
        }
    }

    /// The number of writes that were made.
    pub fn writes(&self) -> u64
        ensures { result ≡ writes self.now }
    {
        self.writes
    }

    /// How the last write went.
    pub fn last_write(&self) -> LastWrite
        ensures { result ≡ last_write self.now }
    {
        self.last
    }

    /// Makes one write.
    pub(crate) fn write(&mut self, bytes: &[u8]) -> io::Result<usize>
        requires more { goes_on (last_write self.old) ≡ true }
        requires few { writes self.old + 1 < 2 ^ 64 }
        ensures lent { self.new.writer.ghost_name ≡ self.old.writer.ghost_name }
        ensures counted { writes self.new ≡ writes self.old + 1 }
        ensures noted { last_write self.new ≡ last_write_by result }
        ensures bound { WritesAtMost result bytes.now }
        ensures bytes { WriteAppends (bytes_out W.contents self.old) (bytes_out W.contents self.new) result bytes.now }
    {
        let written = self.writer.write(bytes);
        self.writes += 1;
        self.last = match written {
            Ok(0) => LastWrite::Nothing,
            Ok(_) => LastWrite::Bytes,
            Err(_) => LastWrite::Failure,
        };
        written
    }
}
