//! Processes that have no row.

ghost use Rattle.std.specs.Prelude.{◌≡◌, List};
ghost use Rattle.chip_log.specs.declared.past.Sizes.{Sizes};
ghost use Rattle.chip_log.specs.declared.row.LogRow.{LogRow};
ghost use Rattle.chip_log.specs.Judge.{AreBeginners, has_row_at};
ghost use Rattle.chip_log.specs.First.{IsFirstAbsent};

/// The least of the first `expected` processes without a row, if there is one, by the beginners of a log.
pub fn first_absent(beginners: &[Option<bool>], expected: u64) -> Option<u64>
    ensures { (sizes : Sizes) (log : List LogRow) → AreBeginners sizes log beginners.now
        → IsFirstAbsent log expected result }
{
    for process in 0..expected {
        if !has_row(beginners, process) {
            return Some(process);
        }
    }
    None
}

/// Whether a process has a row, by the first rows of the processes.
fn has_row(beginners: &[Option<bool>], process: u64) -> bool
    ensures { result ≡ has_row_at beginners.now process }
{
    if process >= beginners.len() as u64 {
        return false;
    }
    beginners[process as usize].is_some()
}
