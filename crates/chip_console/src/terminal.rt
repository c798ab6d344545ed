//! What a person at a terminal reads after the line of a fault.

use chip_command::{Fault, Location, explanations};
use chip_engine::Waits;
use std::alloc::AllocError;
use std::env::{Env, FillError};
use std::io;

/// The most bytes of a word that are read.
const MOST_OF_WORD: usize = 4096;

/// The most processes of a cycle that are named.
const MOST_NAMED: usize = 8;

/// Says that the last argument was not expected, as the command-line library says it of the others.
pub fn say_unexpected(about: &mut String, arguments: &[String]) -> Result<(), AllocError> {
    match arguments.last() {
        Some(word) => {
            write!(
                about,
                "error: unexpected argument '{word}' found\n\nFor more information, try '--help'.\n"
            )
        }
        None => Ok(()),
    }
}

/// Says which argument is the first that is no UTF-8.
pub fn say_no_text<R: Env>(about: &mut String, rt: &R) -> Result<(), AllocError> {
    let mut room = [0u8; MOST_OF_WORD];
    for index in 0..usize::MAX {
        let length = match rt.arg(index, &mut room) {
            Ok(length) => length,
            Err(FillError::TooLong) => 0,
            Err(FillError::NotPresent) => return Ok(()),
        };
        let word = &room[..length];
        if str::from_utf8(word).is_err() {
            let shown = word.escape_ascii();
            return write!(
                about,
                "error: argument '{shown}' is no UTF-8\n\nFor more information, try '--help'.\n"
            );
        }
    }
    Ok(())
}

/// Says where waits lead: to a cycle, or to a process whose message has no sender left.
pub fn say_waits(words: &mut String, waits: &Waits) -> Result<(), AllocError> {
    for (place, process) in waits.processes.iter().enumerate() {
        if Some(*process) == waits.sender {
            return say_cycle(words, &waits.processes, place);
        }
    }
    say_last(words, waits)
}

/// Says which processes form the cycle that begins at this place.
fn say_cycle(words: &mut String, processes: &[u32], place: usize) -> Result<(), AllocError> {
    if let Some(first) = processes.get(place) {
        if place > 0 {
            say_lead(words, place)?;
            write!(words, " to process {first}; ")?;
        }
    }
    words.push_str("each of these waits for the next, and the last for the first:")?;
    let mut is_later = false;
    for process in processes.iter().skip(place).take(MOST_NAMED) {
        if is_later {
            words.push_str(",")?;
        }
        write!(words, " {process}")?;
        is_later = true;
    }
    let count = processes.len().saturating_sub(place);
    if count > MOST_NAMED {
        write!(words, ", and {} more", count - MOST_NAMED)?;
    }
    Ok(())
}

/// Says at which row the last process waits, for which message, and why nobody sends it.
fn say_last(words: &mut String, waits: &Waits) -> Result<(), AllocError> {
    let count = waits.processes.len();
    match waits.processes.last() {
        Some(last) if count > 1 => {
            say_lead(words, count - 1)?;
            write!(words, " to process {last}, which")?;
        }
        _ => words.push_str("it")?,
    }
    let (row, message, channel) = (waits.row, waits.message, waits.stream.channel);
    let kind = if waits.stream.is_control {
        "control message"
    } else {
        "message"
    };
    write!(
        words,
        " waits at its row {row} for {kind} {message} of channel {channel}, and "
    )?;
    match waits.sender {
        Some(sender) => write!(
            words,
            "process {sender}, which sends there, has no row left"
        ),
        None => words.push_str("no process sends there"),
    }
}

/// Says how many waits lead to a process.
fn say_lead(words: &mut String, waits: usize) -> Result<(), AllocError> {
    if waits == 1 {
        words.push_str("from there 1 wait leads")
    } else {
        write!(words, "from there {waits} waits lead")
    }
}

/// Writes what is wrong with the arguments; or in which file a fault is, what it means, and where the waits of a log lead.
/// `about` is what the command-line library says of the arguments, or the name of the file.
pub fn tell_more<R: Eprint>(rt: &R, fault: &Fault, about: &str, waits: &str) -> io::Result<()> {
    if *fault == Fault::Usage && !about.is_empty() {
        return eprint!(rt; "{about}");
    }
    let said = fault.line();
    let number = said.number;
    // Faults from 24 to 33 with a place are in a row of a file. Those below 60, 70 and 92 are about a file.
    match said.location {
        Location::At(row) if number >= 24 && number <= 33 => {
            let line = row.saturating_add(2);
            eprintln!(rt; "  in {about}: row {row}, which is line {line} if no line is empty")?;
        }
        _ if number < 60 || number == 70 || number == 92 => eprintln!(rt; "  in {about}")?,
        _ => {}
    }
    for row in &explanations() {
        if row.number == number {
            eprintln!(rt;
                "  fault {number} {}{}: {}",
                row.name, row.place.letters, row.meaning
            )?;
        }
    }
    if !waits.is_empty() {
        eprintln!(rt; "  {waits}")?;
    }
    eprintln!(rt; "  `chipfire explain {number}` says more.")
}
