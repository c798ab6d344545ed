//! What a command reads, and when it writes lines of progress.

ghost use Rattle.std.specs.Prelude.{◌≡◌, ℕ, List, Option, None, IfErr, IfOk};
ghost use Rattle.chip_arguments.specs.declared.arguments.FileArgument.{FileArgument};

use chip_arguments::FileArgument;
use chip_command::Fault;
use std::fs::{File, Metadata};
use std::io::{Input, Read};
use std::os::fd::AsRawFd;
use std::os::unix::fs::MetadataExt;
use std::rt::{Clock, Files};
use std::sync::atomic::Ordering::SeqCst;
use std::sync::atomic::{AtomicBool, AtomicU64};
use std::time::Instant;
use std::{fs, io};

/// The name of standard input.
const STANDARD_INPUT: &str = "-";

/// The least time between two lines of progress, and before the first, in milliseconds.
const PAUSE: u64 = 1000;

/// When lines of progress are written.
#[derive(Drop)]
struct Pace {
    start: Instant,
    /// The time of the last line, in milliseconds from the start.
    last: AtomicU64,
}

impl Pace {
    /// The clock from now on. `None` if the time cannot be read.
    fn start(clock: &impl Clock) -> Option<Pace> {
        Some(Pace {
            start: Instant::now(clock).ok()?,
            last: AtomicU64::new(0),
        })
    }

    /// Whether a line is due. If several threads ask at once, only one gets `true`.
    fn is_due(&self, clock: &impl Clock) -> bool {
        let Ok(passed) = self.start.elapsed(clock) else {
            return false;
        };
        let now = u64::try_from(passed.as_millis()).unwrap_or(u64::MAX);
        let last = self.last.load(SeqCst);
        now.saturating_sub(last) >= PAUSE
            && self
                .last
                .compare_exchange(last, now, SeqCst, SeqCst)
                .is_ok()
    }
}

/// What a command reads, and when it writes lines of progress.
#[derive(Drop)]
pub struct Console<'a, R: Clock + Eprint> {
    pub rt: &'a R,
    pace: Option<Pace>,
    /// The number of the argument whose file was opened or read last, or 0.
    last: AtomicU64,
    /// Whether standard input was taken.
    has_standard: AtomicBool,
}

impl<'a, R: Clock + Eprint> Console<'a, R> {
    /// A console from now on, with lines of progress if asked.
    pub fn start(rt: &'a R, has_progress: bool) -> Console<'a, R> {
        Console {
            rt,
            pace: if has_progress { Pace::start(rt) } else { None },
            last: AtomicU64::new(0),
            has_standard: AtomicBool::new(false),
        }
    }

    /// Whether lines of progress are asked for.
    pub fn has_progress(&self) -> bool {
        self.pace.is_some()
    }

    /// Whether a line of progress is due.
    pub fn is_due(&self) -> bool {
        match &self.pace {
            Some(pace) => pace.is_due(self.rt),
            None => false,
        }
    }

    /// The index among the process's arguments of the one that names what was opened or read last.
    pub fn last_argument(&self) -> Option<usize> {
        match self.last.load(SeqCst) {
            0 => None,
            number => Some((number as usize).saturating_add(1)),
        }
    }
}

/// Opens the files that arguments name.
pub trait Opener {
    type File: Opened;

    /// The bytes that the file of an argument gives, where they are known.
    ghost known: { FileArgument → Option (List ℕ) };

    fn open(&self, file: &FileArgument<'_>) -> Result<Self::File, Fault>
        ensures opened { IfOk result (λ opened. Self.File.remaining opened ≡ known file.now) }
        ensures refused { IfErr result (λ fault. fault ≡ Fault.Open file.now.number) };
}

/// A file that is read, which can be compared with one to be written.
pub trait Opened: Read + Drop {
    /// Whether it is the file with this metadata.
    fn is_file(&self, found: &Metadata) -> bool;
}

impl<'a, R: Files<File = File> + Input + Clock + Eprint> Opener for &'a Console<'a, R> {
    type File = Reader<'a, R>;

    ghost known = { λ _. None };

    /// Opens the file that an argument names, or takes standard input, once. Nothing is allocated, so if the system is
    /// out of memory the fault is `Open`.
    fn open(&self, file: &FileArgument<'_>) -> Result<Reader<'a, R>, Fault> {
        self.note(file);
        let source = if file.path != STANDARD_INPUT {
            match fs::open(self.rt, file.path).and_then(above_streams) {
                Ok(opened) => Source::File(opened),
                Err(_) => return Err(Fault::Open(file.number)),
            }
        } else if self.has_standard.swap(true, SeqCst) {
            return Err(Fault::Open(file.number));
        } else {
            Source::Standard
        };
        Ok(Reader {
            console: *self,
            argument: file.number,
            source,
            bytes: 0,
        })
    }
}

impl<R: Clock + Eprint> Console<'_, R> {
    /// Notes that this file is opened or read now.
    pub(crate) fn note(&self, file: &FileArgument<'_>) {
        self.last.store(file.number, SeqCst);
    }
}

/// Gives a file a number above those of the standard streams. If one of these is closed, the file may have got its
/// number, and would be read in its place or get the line of a fault.
pub(crate) fn above_streams(file: File) -> io::Result<File> {
    if file.as_raw_fd() > 2 {
        return Ok(file);
    }
    file.try_clone()
}

/// The source of bytes.
#[derive(Drop)]
enum Source {
    File(File),
    Standard,
}

/// What a command reads. Its console notes each read, and reports the number of bytes read.
#[derive(Drop)]
pub struct Reader<'a, R: Input + Clock + Eprint> {
    console: &'a Console<'a, R>,
    /// The number of the argument that names it.
    argument: u64,
    source: Source,
    /// The number of bytes read, at most 2^64 - 1.
    bytes: u64,
}

impl<R: Files<File = File> + Input + Clock + Eprint> Opened for Reader<'_, R> {
    fn is_file(&self, found: &Metadata) -> bool {
        let now = match &self.source {
            Source::File(file) => file.metadata(),
            Source::Standard => fs::metadata(self.console.rt, "/dev/stdin"),
        };
        is_same(&now, found)
    }
}

/// Whether the metadata were found and are those of the same file.
pub(crate) fn is_same(now: &io::Result<Metadata>, found: &Metadata) -> bool {
    match now {
        Ok(now) => now.dev() == found.dev() && now.ino() == found.ino(),
        Err(_) => false,
    }
}

impl<R: Input + Clock + Eprint> Read for Reader<'_, R> {
    fn read(&mut self, buf: &mut [u8]) -> io::Result<usize> {
        self.console.last.store(self.argument, SeqCst);
        let count = match &mut self.source {
            Source::File(file) => file.read(buf)?,
            Source::Standard => self.console.rt.reader().read(buf)?,
        };
        self.bytes = self.bytes.saturating_add(count as u64);
        if self.console.is_due() {
            let bytes = self.bytes;
            let _ = eprintln!(self.console.rt; "chipfire: progress: reading, {bytes} bytes");
        }
        Ok(count)
    }
}
