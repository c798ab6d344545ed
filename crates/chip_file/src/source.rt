//! A reader of one input that counts its reads.

ghost use Rattle.std.specs.Prelude.{◌≡◌, ◌+◌, ◌<◌, true, length};
ghost use Rattle.std.specs.Io.{ReadsAtMost};
ghost use Rattle.std.specs.Io.KnownBytes.{ReadConsumes};
ghost use Rattle.chip_file.specs.Source.{IsFresh, may_read_on, last_by, last_read, bytes_left, max_reads, reads};

use std::io;
use std::io::Read;

/// How the last read of an input went.
#[derive(Clone, Copy, PartialEq, Eq)]
pub enum LastRead {
    /// No read was made yet.
    NotYet,
    /// It gave bytes.
    Bytes,
    /// It found the end.
    End,
    /// It failed.
    Failure,
}

/// A reader of one input, which counts its reads and notes how the last one went.
#[derive(Drop)]
pub struct Source<'r, R> {
    reader: &'r mut R,
    reads: u64,
    last: LastRead,
}

impl<'r, R: Read> Source<'r, R> {
    /// A source from which nothing was read yet.
    pub fn new(reader: &'r mut R) -> Source<'r, R>
        ensures lent { result.reader.ghost_name ≡ reader.entry.ghost_name }
        ensures same { result.reader.now ≡ reader.old }
        ensures fresh { IsFresh result }
    {
        Source {
            reader,
            reads: 0,
            last: LastRead::NotYet,
        }
    }

    /// The number of reads that were made.
    pub fn reads(&self) -> u64
        ensures { result ≡ reads self.now }
    {
        self.reads
    }

    /// How the last read went.
    pub fn last_read(&self) -> LastRead
        ensures { result ≡ last_read self.now }
    {
        self.last
    }

    /// Makes one read, of at least one byte if the input has more.
    pub(crate) fn read(&mut self, buf: &mut [u8]) -> io::Result<usize>
        requires more { may_read_on (last_read self.old) ≡ true }
        requires few { reads self.old < max_reads }
        requires room { 0 < length buf.old }
        ensures lent { self.new.reader.ghost_name ≡ self.old.reader.ghost_name }
        ensures counted { reads self.new ≡ reads self.old + 1 }
        ensures noted { last_read self.new ≡ last_by result }
        ensures bound { ReadsAtMost result buf.new }
        ensures bytes { ReadConsumes (bytes_left R.remaining self.old)
            (bytes_left R.remaining self.new) result buf.new }
    {
        self.reads += 1;
        let read = self.reader.read(buf);
        self.last = match &read {
            Ok(0) => LastRead::End,
            Ok(_) => LastRead::Bytes,
            Err(_) => LastRead::Failure,
        };
        read
    }
}
