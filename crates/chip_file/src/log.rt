//! Logs of distributed programs as rows of text.

ghost use Rattle.std.specs.Prelude.{◌≡◌, ◌+◌, ◌*◌, ◌^◌, ◌<◌, ◌≤◌, ◌∷◌, ◌++◌, [], true, List, length, map, max, nat_le};
ghost use Rattle.std.specs.Prelude.{slice_index_or, Some, None, IfOk, IfErr, MatchResult};
ghost use Rattle.std.specs.Prelude.{if◌then◌else◌};
ghost use Rattle.csv.specs.Records.{fields_of};
ghost use Rattle.chip_log.specs.declared.row.LogRow.{LogRow};
ghost use Rattle.chip_log.specs.Judge.{AreBeginners, first_step};
ghost use Rattle.chip_log.specs.Log.{steps_of};
ghost use Rattle.chip_log.specs.Order.{IsWellFormed};
ghost use Rattle.chip_file.specs.Answer.{Gives, ReadsText};
ghost use Rattle.chip_file.specs.LogText.{stream, step_of_kind, log_row_in, channels_to, most_processes, most_channels};
ghost use Rattle.chip_file.specs.LogText.{lone_row_fault, placed_fault, log_row_fault, log_text_fault, log_of_text};
ghost use Rattle.chip_file.specs.LogText.{holder, may_hold, may_begin, sizes_of};
ghost use Rattle.chip_file.specs.LogSoFar.{NotesAt, end_number, next_activity, AreHolders, AreActive, IsFaultless};
ghost use Rattle.chip_file.specs.LogSoFar.{IsSoFar};
ghost use Rattle.chip_file.specs.Source.{IsFresh, ReadsSource};

use crate::fault::FileFault;
use crate::kind::kind_at;
use crate::number::number_at;
use crate::rows::{RowVisitor, visit_text};
use crate::source::Source;
use crate::whole::read_source;
use chip_graph::Limits;
use chip_log::{LogRow, Sizes, Step, Stream};
use csv::ByteRecord;
use std::alloc::{AllocError, Global};
use std::io::Read;

/// The header of a log.
const HEADER: [&str; 3] = ["process", "kind", "channel"];

/// What a row of a log may be.
#[derive(Clone, Copy)]
enum LogKind {
    Send,
    Receive,
    Tell,
    Hear,
    Passive,
    Active,
    Over,
}

/// The kinds of rows, by their names.
static KINDS: [(&str, LogKind); 7] = [
    ("send", LogKind::Send),
    ("receive", LogKind::Receive),
    ("tell", LogKind::Tell),
    ("hear", LogKind::Hear),
    ("passive", LogKind::Passive),
    ("active", LogKind::Active),
    ("over", LogKind::Over),
];

impl LogKind {
    /// The step of this kind, if its channel is below `channels`; only a message has a channel.
    fn step(self, channel: u64, channels: u64) -> Option<Step>
        requires { channels ≤ 2 ^ 32 }
        ensures { let step = step_of_kind self channel in
            result ≡ (if nat_le (channels_to step) channels then Some step else None) }
    {
        let step = match self {
            LogKind::Send => Step::Out(stream(channel, false, channels)?),
            LogKind::Receive => Step::In(stream(channel, false, channels)?),
            LogKind::Tell => Step::Out(stream(channel, true, channels)?),
            LogKind::Hear => Step::In(stream(channel, true, channels)?),
            LogKind::Passive => Step::Passive,
            LogKind::Active => Step::Active,
            LogKind::Over => Step::Over,
        };
        Some(step)
    }
}

/// The basic or the control messages of a channel, if it is below `channels`.
fn stream(channel: u64, is_control: bool, channels: u64) -> Option<Stream>
    requires { channels ≤ 2 ^ 32 }
    ensures { result ≡ (if nat_le (channel + 1) channels then Some (stream is_control channel) else None) }
{
    if channel >= channels {
        return None;
    }
    Some(Stream {
        channel: channel as u32,
        is_control,
    })
}

/// A log, and the numbers of processes and channels that its greatest numbers need.
#[derive(Drop)]
pub struct Log {
    pub rows: Vec<LogRow>,
    pub sizes: Sizes,
    /// Of each process whether it begins active; `None` if it has no row.
    pub beginners: Vec<Option<bool>>,
}

/// The rows of a log so far, and what the checks of the next one need.
#[derive(Drop)]
pub(crate) struct LogSoFar {
    pub(crate) log: Log,
    /// The process that has an end of a stream, by the number of the end.
    pub(crate) holders: Vec<Option<u32>>,
    /// Whether a process with a row is active.
    pub(crate) active: Vec<Option<bool>>,
}

impl RowVisitor for LogSoFar {
    type Context = Limits;

    ghost row_fault = { log_row_fault };

    ghost HasVisited = { λ limits rows so_far. IsSoFar (map log_row_in rows) so_far };

    fn visit(&mut self, limits: &Limits, row: &ByteRecord, index: u64) -> Result<(), FileFault> {
        let row = row_of(*limits, row, index)?;
        self.check(row, index)?;
        self.add(row)?;
        Ok(())
    }
}

impl LogSoFar {
    /// A log without rows.
    fn new(alloc: Global) -> LogSoFar
        ensures { IsSoFar [] result }
    {
        LogSoFar {
            log: Log {
                rows: Vec::new(alloc),
                sizes: Sizes {
                    processes: 0,
                    channels: 0,
                },
                beginners: Vec::new(alloc),
            },
            holders: Vec::new(alloc),
            active: Vec::new(alloc),
        }
    }

    /// The fault of a row that follows these, if it has one.
    fn check(&self, row: LogRow, index: u64) -> Result<(), FileFault>
        ensures { (log : List LogRow) → IsSoFar log self.now
            → MatchResult result (λ _. placed_fault index log row ≡ None) (λ f. placed_fault index log row ≡ Some f) }
    {
        if !self.may_hold(row) {
            return Err(FileFault::End(index));
        }
        let active = known(&self.active, row.process as usize);
        match row.step {
            Step::Out(stream) if !stream.is_control && active != Some(true) => {
                Err(FileFault::Passive(index))
            }
            Step::Active if active.is_some() => Err(FileFault::Woken(index)),
            _ => Ok(()),
        }
    }

    /// Whether no other process has the end of a stream at which a row is.
    fn may_hold(&self, row: LogRow) -> bool
        ensures { (log : List LogRow) → IsSoFar log self.now
            → result ≡ may_hold (holder row.step log) row.process }
    {
        match end_number(row.step) {
            Some(end) => known(&self.holders, end).is_none_or(|holder| holder == row.process),
            None => true,
        }
    }

    /// Adds a row.
    fn add(&mut self, row: LogRow) -> Result<(), AllocError>
        requires process { row.process + 1 < 2 ^ 32 }
        requires channel { channels_to row.step < 2 ^ 32 }
        ensures { IfOk result (λ _. (log : List LogRow) → IsSoFar log self.old → IsFaultless log row
            → IsSoFar (log ++ row ∷ []) self.new) }
    {
        hold(&mut self.holders, row)?;
        act(&mut self.active, row)?;
        begin(&mut self.log.beginners, row)?;
        self.log.sizes = with_room(self.log.sizes, row);
        self.log.rows.push(row)?;
        Ok(())
    }
}

/// Notes that the row's process has the end at which the row is.
fn hold(holders: &mut Vec<Option<u32>>, row: LogRow) -> Result<(), AllocError>
    ensures { IfOk result (λ _. (log : List LogRow) → AreHolders log holders.old.items
        → may_hold (holder row.step log) row.process ≡ true → AreHolders (log ++ row ∷ []) holders.new.items) }
{
    match end_number(row.step) {
        Some(end) => note(holders, end, row.process)?,
        None => {}
    }
    Ok(())
}

/// Notes whether the row's process is active.
fn act(active: &mut Vec<Option<bool>>, row: LogRow) -> Result<(), AllocError>
    ensures { IfOk result (λ _. (log : List LogRow) → AreActive log active.old.items
        → may_begin (steps_of row.process log) row.step ≡ true → AreActive (log ++ row ∷ []) active.new.items) }
{
    let process = row.process as usize;
    let now = next_activity(known(active, process), row.step);
    note(active, process, now)?;
    Ok(())
}

/// Notes whether the row's process begins active.
fn begin(beginners: &mut Vec<Option<bool>>, row: LogRow) -> Result<(), AllocError>
    ensures { IfOk result (λ _. (log : List LogRow) → AreBeginners (sizes_of log) log beginners.old.items
        → AreBeginners (sizes_of (log ++ row ∷ [])) (log ++ row ∷ []) beginners.new.items) }
{
    let process = row.process as usize;
    let begins = begins_active(known(beginners, process), row.step);
    note(beginners, process, begins)?;
    Ok(())
}

/// The sizes with room for one more row.
fn with_room(sizes: Sizes, row: LogRow) -> Sizes
    requires process { row.process + 1 < 2 ^ 32 }
    requires channel { channels_to row.step < 2 ^ 32 }
    ensures processes { result.processes ≡ max sizes.processes (row.process + 1) }
    ensures channels { result.channels ≡ max sizes.channels (channels_to row.step) }
{
    Sizes {
        processes: sizes.processes.max(row.process + 1),
        channels: sizes.channels.max(channels_to(row.step)),
    }
}

/// The entry of a list at a place, or none if the list ends before it.
fn known<T: Copy>(list: &[Option<T>], place: usize) -> Option<T>
    ensures { result ≡ slice_index_or list.now place None }
{
    if place < list.len() {
        list[place]
    } else {
        None
    }
}

/// Writes an entry into a list, which is extended if needed.
fn note<T: Copy>(list: &mut Vec<Option<T>>, place: usize, value: T) -> Result<(), AllocError>
    requires { place < 2 ^ 40 }
    ensures notes { IfOk result (λ _. NotesAt place value list.old.items list.new.items) }
    ensures extends { IfOk result (λ _. length list.new.items ≡ max (length list.old.items) (place + 1)) }
{
    if list.len() <= place {
        list.resize(place + 1, None)?;
    }
    list[place] = Some(value);
    Ok(())
}

/// The number of the end of a stream at which a step is.
fn end_number(step: Step) -> Option<usize>
    ensures { result ≡ end_number step }
{
    match step {
        Step::Out(stream) => Some(4 * stream.channel as usize + usize::from(stream.is_control)),
        Step::In(stream) => Some(4 * stream.channel as usize + 2 + usize::from(stream.is_control)),
        Step::Passive | Step::Active | Step::Over => None,
    }
}

/// Whether a process is active after a step, by whether it was before, if it had a row.
fn next_activity(was: Option<bool>, step: Step) -> bool
    ensures { result ≡ next_activity was step }
{
    match step {
        Step::In(stream) if !stream.is_control => true,
        Step::Active if was.is_none() => true,
        Step::Passive => false,
        _ => was.unwrap_or(false),
    }
}

/// Whether a process begins active, by what its rows before say, if it has any, or else by its first step.
fn begins_active(was: Option<bool>, step: Step) -> bool
    ensures { Some result ≡ first_step was step }
{
    was.unwrap_or(matches!(step, Step::Active))
}

/// The number of channels up to that of a step.
fn channels_to(step: Step) -> u32
    requires { channels_to step < 2 ^ 32 }
    ensures { result ≡ channels_to step }
{
    match step {
        Step::Out(stream) | Step::In(stream) => stream.channel + 1,
        Step::Passive | Step::Active | Step::Over => 0,
    }
}

/// Reads the log of a file of rows within the limits, or returns the file's first fault.
///
/// The rows keep the order of the file. There are at most twice as many processes and channels as a graph within the
/// limits has vertices and edges.
pub fn read_log_within<R: Read>(
    alloc: Global,
    limits: Limits,
    reader: &mut R,
) -> Result<Log, FileFault>
    ensures reads { ReadsText limits (λ text log. log_of_text limits text ≡ Some (log.rows.items, log.sizes))
        (λ text f. log_text_fault limits text ≡ Some f) (R.remaining reader.old) (R.remaining reader.new) result }
    ensures well_formed { IfOk result (λ log. IsWellFormed log.sizes log.rows.items) }
    ensures beginners { IfOk result (λ log. AreBeginners log.sizes log.rows.items log.beginners.items) }
    ensures few { IfOk result (λ log. length log.rows.items < 2 ^ 32) }
{
    log_of_source(alloc, limits, &mut Source::new(reader))
}

/// The same from a source, which counts the reads.
pub fn log_of_source<R: Read>(
    alloc: Global,
    limits: Limits,
    source: &mut Source<'_, R>,
) -> Result<Log, FileFault>
    requires { IsFresh source.old }
    ensures lent { source.new.reader.ghost_name ≡ source.old.reader.ghost_name }
    ensures reads { ReadsSource R.remaining limits
        (λ text log. log_of_text limits text ≡ Some (log.rows.items, log.sizes))
        (λ text f. log_text_fault limits text ≡ Some f) source.old source.new result }
    ensures well_formed { IfOk result (λ log. IsWellFormed log.sizes log.rows.items) }
    ensures beginners { IfOk result (λ log. AreBeginners log.sizes log.rows.items log.beginners.items) }
    ensures few { IfOk result (λ log. length log.rows.items < 2 ^ 32) }
{
    let text = read_source(alloc, limits, source)?;
    log_of_text(alloc, limits, &text)
}

/// The log that a text means, or its first fault.
pub fn log_of_text(alloc: Global, limits: Limits, text: &[u8]) -> Result<Log, FileFault>
    ensures means { Gives (λ log. log_of_text limits text.now ≡ Some (log.rows.items, log.sizes))
        (λ f. log_text_fault limits text.now ≡ Some f) result }
    ensures well_formed { IfOk result (λ log. IsWellFormed log.sizes log.rows.items) }
    ensures beginners { IfOk result (λ log. AreBeginners log.sizes log.rows.items log.beginners.items) }
    ensures few { IfOk result (λ log. length log.rows.items ≤ length text.now) }
{
    let so_far = visit_text(alloc, text, &HEADER, &limits, LogSoFar::new(alloc))?;
    Ok(so_far.log)
}

/// What the row with this index says.
fn row_of(limits: Limits, row: &ByteRecord, index: u64) -> Result<LogRow, FileFault>
    ensures ok { IfOk result (λ found. (lone_row_fault limits index (fields_of row.now) ≡ None)
        × (found ≡ log_row_in (fields_of row.now))) }
    ensures small { IfOk result (λ found. (found.process + 1 < 2 ^ 32) × (channels_to found.step < 2 ^ 32)) }
    ensures err { IfErr result (λ f. lone_row_fault limits index (fields_of row.now) ≡ Some f) }
{
    if row.len() != HEADER.len() {
        return Err(FileFault::Row(index));
    }
    let kind = kind_at(&KINDS, row, 1).ok_or(FileFault::Kind(index))?;
    let process = number_at(row, 0).ok_or(FileFault::Number(index))?;
    let channel = number_at(row, 2).ok_or(FileFault::Number(index))?;
    if process >= 2 * limits.vertices() {
        return Err(FileFault::Vertex(index));
    }
    let step = kind
        .step(channel, 2 * limits.edges())
        .ok_or(FileFault::Vertex(index))?;
    Ok(LogRow {
        process: process as u32,
        step,
    })
}
