ghost use Rattle.std.specs.Prelude.{◌≡◌, ◌+◌, ◌≤◌};
ghost use Rattle.chip_file.specs.Answer.{ReadsWhole};
ghost use Rattle.chip_file.specs.Source.{IsFresh, last_of_whole, last_read, bytes_left, reads};

use crate::fault::FileFault;
use crate::source::Source;
use chip_graph::Limits;
use std::alloc::Global;
use std::io::Read;

/// The number of bytes asked for at once.
const CHUNK: usize = 16_384;

/// Reads the whole of an input within the limits; the source counts the reads.
///
/// A read that gives no byte is the end. A read that fails for whatever reason, even an interruption, is `Read`. No
/// read follows either. At most one read more is made than an input may have bytes.
pub fn read_source<R: Read>(
    alloc: Global,
    limits: Limits,
    source: &mut Source<'_, R>,
) -> Result<Vec<u8>, FileFault>
    requires { IsFresh source.old }
    ensures whole { ReadsWhole limits (bytes_left R.remaining source.old) (bytes_left R.remaining source.new) result }

    // At any reader.
    ensures lent { source.new.reader.ghost_name ≡ source.old.reader.ghost_name }
    ensures few_reads { reads source.new ≤ limits.bytes + 1 }
    ensures told { last_read source.new ≡ last_of_whole result }
{
    let most = limits.bytes();
    let mut bytes = Vec::new(alloc);
    let mut chunk = [0u8; CHUNK];
    while bytes.len() as u64 <= most {
        match source.read(&mut chunk) {
            Ok(0) => return Ok(bytes),
            Ok(count) => bytes.extend_from_slice(&chunk[..count])?,
            Err(_) => return Err(FileFault::Read),
        }
    }
    Err(FileFault::TooLong)
}

/// Reads the whole of a reader's input within the limits, as `read_source` reads it.
pub fn read_whole_within<R: Read>(
    alloc: Global,
    limits: Limits,
    reader: &mut R,
) -> Result<Vec<u8>, FileFault>
    ensures { ReadsWhole limits (R.remaining reader.old) (R.remaining reader.new) result }
{
    read_source(alloc, limits, &mut Source::new(reader))
}
