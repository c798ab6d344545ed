//! Exact writing: all the bytes, or a fault with the number of bytes written.

ghost use Rattle.std.specs.Prelude.{◌≡◌, ◌≤◌, length, is_ok};
ghost use Rattle.chip_report.specs.Sink.{IsUnwritten, bytes_out, goes_on, last_write, writes};
ghost use Rattle.chip_report.specs.Written.{WritesAll};

use crate::sink::Sink;
use std::io::Write;
use thiserror::Error;

/// A write failed, or took no byte.
#[derive(Clone, Copy, Debug, PartialEq, Eq, Error)]
#[error("a write failed after {written} bytes")]
pub struct WriteFault {
    /// The number of bytes written before.
    pub written: u64,
}

impl WriteFault {
    ghost use Rattle.std.specs.Prelude.{◌≡◌};
    ghost use Rattle.chip_report.specs.FaultNumbers.{write_fault_number};

    /// The number of this fault in the table of faults.
    pub fn number(&self) -> u64
        ensures { result ≡ write_fault_number }
    {
        93
    }
}

/// Writes all the bytes, in as many writes as the writer needs. The sink counts them.
///
/// A write that fails for whatever reason, even an interruption, or that takes no byte is a fault. No write follows it.
pub fn write_all_to<W: Write>(sink: &mut Sink<'_, W>, bytes: &[u8]) -> Result<(), WriteFault>
    requires { IsUnwritten sink.old }
    ensures bytes { WritesAll (bytes_out W.contents sink.old) (bytes_out W.contents sink.new) bytes.now result }

    // At any writer.
    ensures lent { sink.new.writer.ghost_name ≡ sink.old.writer.ghost_name }
    ensures few_writes { writes sink.new ≤ length bytes.now }
    ensures told { goes_on (last_write sink.new) ≡ is_ok result }
{
    let mut written = 0;
    while written < bytes.len() {
        match sink.write(&bytes[written..]) {
            Ok(count) if count > 0 => written += count,
            _ => {
                return Err(WriteFault {
                    written: written as u64,
                });
            }
        }
    }
    Ok(())
}

/// Writes all the bytes, as `write_all_to` writes them.
pub fn write_all_of<W: Write>(writer: &mut W, bytes: &[u8]) -> Result<(), WriteFault>
    ensures { WritesAll (W.contents writer.old) (W.contents writer.new) bytes.now result }
{
    let mut sink = Sink::new(writer);
    write_all_to(&mut sink, bytes)
}
