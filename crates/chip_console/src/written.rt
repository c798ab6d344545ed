//! The files of options into which a command writes.

ghost use Rattle.std.specs.Prelude.{◌≡◌, IfErr, IfOk, IsSome, OnErr, is_some};
ghost use Rattle.chip_command.specs.declared.fault.Fault.TheVariants.{Open};
ghost use Rattle.chip_console.specs.Commands.{IsPut, IsUnopenedOption};

use crate::console::{Console, Opened, above_streams, is_same};
use chip_arguments::FileArgument;
use chip_command::{Ended, Fault};
use std::alloc::AllocError;
use std::fs::{File, Metadata, OpenFile};
use std::io::{ErrorKind, Input, Write};
use std::os::unix::fs::MetadataExt;
use std::rt::{Clock, Files};
use std::{fs, io};

/// The folder of the links to the files that standard output and standard error are.
const STREAMS: [&str; 2] = ["/dev/stdout", "/dev/stderr"];

/// The most names that are tried for a new file beside another one.
const MOST_NAMES: u64 = 1000;

/// The file of `--report`. Its place is tried at once, and the file is made when the first bytes come: beside its place
/// if possible, and moved there once it is whole.
#[derive(Drop)]
pub(crate) struct ReportFile<'a, R> {
    rt: &'a R,
    path: &'a str,
    /// Whether it is made beside its place, and its name there.
    is_beside: bool,
    name: String,
    /// `None` until it is made, or held open.
    file: Option<File>,
}

impl<R: Files<File = File>> Write for ReportFile<'_, R> {
    fn write(&mut self, buf: &[u8]) -> io::Result<usize> {
        if self.file.is_none() {
            self.file = if self.is_beside {
                self.create_beside()?
            } else {
                Some(fs::create(self.rt, self.path).and_then(above_streams)?)
            };
        }
        match &mut self.file {
            Some(file) => file.write(buf),
            None => Ok(0),
        }
    }

    fn flush(&mut self) -> io::Result<()> {
        Ok(())
    }
}

impl<'a, R: Files<File = File> + AllocGlobal> ReportFile<'a, R> {
    /// The file of this path, if it can be made there. The trial leaves nothing.
    fn try_at(rt: &'a R, file: &FileArgument<'a>) -> Result<ReportFile<'a, R>, Fault> {
        let mut report = ReportFile {
            rt,
            path: file.path,
            is_beside: true,
            name: String::new(rt.alloc()),
            file: None,
        };
        if report.create_beside()?.is_some() {
            let _ = fs::remove_file(rt, report.name.as_str());
            return Ok(report);
        }
        report.is_beside = false;
        report.file = report
            .open_in_place()
            .map_err(|_| Fault::Open(file.number))?;
        Ok(report)
    }

    /// Opens what is in the place and keeps it open if it is no regular file, such as a pipe. A regular file is opened,
    /// left as it is, and closed again, and a new one is removed again.
    fn open_in_place(&self) -> io::Result<Option<File>> {
        let is_new = fs::metadata(self.rt, self.path).is_err();
        let mut options = File::options();
        let opened = options.write(true).create(true).open(self.rt, self.path)?;
        if !opened.metadata()?.is_file() {
            return Ok(Some(above_streams(opened)?));
        }
        if is_new {
            // (a link that leads to it stays)
            if let Ok(whole) = self.rt.canonicalize(self.rt.alloc(), self.path) {
                let _ = fs::remove_file(self.rt, whole.as_path());
            }
        }
        Ok(None)
    }
}

impl<R: Files<File = File>> ReportFile<'_, R> {
    /// A new file beside the place, whose name is noted. `None` if none can be made there, or if the place has
    /// something other than a file that can be written, of the same owner, with no other name.
    fn create_beside(&mut self) -> Result<Option<File>, AllocError> {
        let old = match fs::symlink_metadata(self.rt, self.path) {
            Ok(old) if old.is_file() && old.nlink() == 1 => Some(old),
            Err(error) if error.kind() == ErrorKind::NotFound && !self.path.is_empty() => None,
            _ => return Ok(None),
        };
        let can_write = old.is_none()
            || File::options().write(true).open(self.rt, self.path).is_ok();
        if !can_write {
            return Ok(None);
        }
        for number in 1..=MOST_NAMES {
            self.name.clear();
            let path = self.path;
            write!(self.name, "{path}.chipfire-{number}")?;
            match File::create_new(self.rt, self.name.as_str()) {
                Ok(made) => return Ok(self.replacing(made, old)),
                Err(error) if error.kind() == ErrorKind::AlreadyExists => {}
                Err(_) => return Ok(None),
            }
        }
        Ok(None)
    }

    /// The new file, with the mode and the owner of the one that it will replace. If it cannot have these, it is
    /// removed.
    fn replacing(&self, made: File, old: Option<Metadata>) -> Option<File> {
        let made = above_streams(made).ok().filter(|made| match &old {
            Some(old) => takes_after(made, old),
            None => true,
        });
        if made.is_none() {
            let _ = fs::remove_file(self.rt, self.name.as_str());
        }
        made
    }

    /// Moves the file to its place after a command that ended well, and removes it after a fault.
    pub(crate) fn put(self, ended: Result<Ended, Fault>) -> Result<Ended, Fault>
        ensures { IsPut ended result }
    {
        if !self.is_beside || self.file.is_none() {
            return ended;
        }
        let beside = self.name.as_str();
        if ended.is_ok() && fs::rename(self.rt, beside, self.path).is_ok() {
            return ended;
        }
        // A place that cannot be replaced by renaming, such as a mount point, may still be written.
        let is_put = ended.is_ok() && fs::copy(self.rt, beside, self.path).is_ok();
        let _ = fs::remove_file(self.rt, beside);
        if is_put || ended.is_err() {
            ended
        } else {
            Err(Fault::WriteFile)
        }
    }
}

impl<R: Files<File = File> + Input + Clock + Eprint + AllocGlobal> Console<'_, R> {
    /// Creates the file of `--trace`, if there is one, or empties it.
    pub(crate) fn create<I: Opened>(
        &self,
        file: &Option<FileArgument<'_>>,
        inputs: &[&I],
    ) -> Result<Option<File>, Fault>
        ensures opened { IfOk result (λ opened. is_some opened ≡ is_some file.now) }
        ensures refused { IfErr result (IsUnopenedOption file.now) }
    {
        let Some(file) = file else {
            return Ok(None);
        };
        self.refuse_used(file, inputs)?;
        Ok(Some(self.empty(file)?))
    }

    /// The file of `--report`, if there is one.
    pub(crate) fn try_report<'f, I: Opened>(
        &'f self,
        file: &Option<FileArgument<'f>>,
        inputs: &[&I],
    ) -> Result<Option<ReportFile<'f, R>>, Fault>
        ensures opened { IfOk result (λ report. is_some report ≡ is_some file.now) }
        ensures refused { OnErr result (IsSome file.now) }
    {
        let Some(file) = file else {
            return Ok(None);
        };
        self.refuse_used(file, inputs)?;
        Ok(Some(ReportFile::try_at(self.rt, file)?))
    }

    /// Refuses a file to be written that is one of these inputs, or the file of a standard stream.
    fn refuse_used<I: Opened>(&self, file: &FileArgument<'_>, inputs: &[&I]) -> Result<(), Fault>
        ensures { IfErr result (λ fault. fault ≡ Open file.now.number) }
    {
        self.note(file);
        let Ok(found) = fs::metadata(self.rt, file.path) else {
            return Ok(());
        };
        for input in inputs {
            if input.is_file(&found) {
                return Err(Fault::Open(file.number));
            }
        }
        for stream in STREAMS {
            if found.is_file() && is_same(&fs::metadata(self.rt, stream), &found) {
                return Err(Fault::Open(file.number));
            }
        }
        Ok(())
    }

    /// Creates a file, or empties it.
    fn empty(&self, file: &FileArgument<'_>) -> Result<File, Fault>
        ensures { IfErr result (λ fault. fault ≡ Open file.now.number) }
    {
        match fs::create(self.rt, file.path).and_then(above_streams) {
            Ok(created) => Ok(created),
            Err(_) => Err(Fault::Open(file.number)),
        }
    }
}

/// Gives a new file the mode of an old one; whether that could be done, and the owner is the same.
fn takes_after(made: &File, old: &Metadata) -> bool {
    match made.metadata() {
        Ok(now) => {
            now.uid() == old.uid()
                && now.gid() == old.gid()
                && made.set_permissions(old.permissions()).is_ok()
        }
        Err(_) => false,
    }
}
