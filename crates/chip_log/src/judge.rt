//! Whether the claims of a log are right.

ghost use Rattle.std.specs.Prelude.{◌≡◌, ◌^◌, ◌<◌, not, [], length, IfOk, MatchBool, MatchResult};
ghost use Rattle.std.specs.List.{list_any};
ghost use Rattle.std.specs.Option.{ForSome};
ghost use Rattle.chip_log.specs.Past.{IsInOrder, IsPlace, AreSized};
ghost use Rattle.chip_log.specs.Order.{IsWellFormed, IsOrderFault};
ghost use Rattle.chip_log.specs.Judged.{is_early, AreJudged, IsOpenEnd, IsJudgedLog};
ghost use Rattle.chip_log.specs.Judge.{IsFirstWay, IsFirstBusy, busy_at, AreBeginners, IsLeftOver};
ghost use Rattle.chip_log.specs.Judge.{AreCounts, Judges, IsKnown};

use crate::books::{Books, Said};
use crate::claims::claims_of;
use crate::fault::OrderFault;
use crate::judged::{ClaimVerdict, JudgedLog, LogEnd, PastRows};
use crate::order::ordered;
use crate::past::{ClaimPlace, Sizes, books_of_all, past_of};
use crate::row::{LogRow, Stream};
use crate::verdict::Verdict;
use crate::watch::ClaimWatch;
use std::alloc::{AllocError, Global};

/// The verdicts on all claims of a log, and its end.
///
/// The time is linear in the rows, the processes and the channels, once more for each early claim and for the first
/// right claim of each process. With `with_past` the rows in the causal past of each early claim are counted.
///
/// It fails exactly if the rows have no order in which each is enabled, or if memory runs out.
pub fn judge_log<W: ClaimWatch>(
    alloc: Global,
    sizes: Sizes,
    rows: &[LogRow],
    beginners: &[Option<bool>],
    with_past: bool,
    watch: &mut W,
) -> Result<JudgedLog, OrderFault>
    requires well_formed { IsWellFormed sizes rows.now }
    requires few { length rows.now < 2 ^ 32 }
    requires beginners { AreBeginners sizes rows.now beginners.now }
    ensures { MatchResult result (IsJudgedLog with_past rows.now) (IsOrderFault rows.now) }
{
    let order = ordered(alloc, sizes, rows, watch)?;
    Ok(judge_ordered(alloc, sizes, &order, beginners, with_past, watch)?)
}

/// The verdicts on all claims of an ordered log, and its end.
fn judge_ordered<W: ClaimWatch>(
    alloc: Global,
    sizes: Sizes,
    rows: &[LogRow],
    beginners: &[Option<bool>],
    with_past: bool,
    watch: &mut W,
) -> Result<JudgedLog, AllocError>
    requires order { IsInOrder sizes rows.now }
    requires beginners { AreBeginners sizes rows.now beginners.now }
    ensures { IfOk result (IsJudgedLog with_past rows.now) }
{
    let claims = judge_all(alloc, sizes, rows, beginners, with_past, watch)?;
    if is_one_right(&claims) {
        let end = LogEnd::Claimed;
        return Ok(JudgedLog { claims, end });
    }
    let end = open_end(alloc, sizes, rows, beginners)?;
    Ok(JudgedLog { claims, end })
}

/// The verdicts on all claims.
fn judge_all<W: ClaimWatch>(
    alloc: Global,
    sizes: Sizes,
    rows: &[LogRow],
    beginners: &[Option<bool>],
    with_past: bool,
    watch: &mut W,
) -> Result<Vec<ClaimVerdict>, AllocError>
    requires order { IsInOrder sizes rows.now }
    requires beginners { AreBeginners sizes rows.now beginners.now }
    ensures { IfOk result (λ claims. AreJudged with_past rows.now claims.items) }
{
    let places = claims_of(alloc, sizes, rows)?;
    let mut claims = Vec::new(alloc);
    let mut right = None;
    let mut next = 0;
    while next < places.len() {
        watch.judges(next, places.len());
        let place = places[next];
        let claim = judge_next(alloc, sizes, rows, beginners, place, right, with_past)?;
        if !claim.verdict.is_early() {
            right = Some(place);
        }
        claims.push(claim)?;
        next += 1;
    }
    Ok(claims)
}

/// The verdict on a claim. `right` is the last right claim before it: if that is of the same process, this one is right too.
pub(crate) fn judge_next(
    alloc: Global,
    sizes: Sizes,
    rows: &[LogRow],
    beginners: &[Option<bool>],
    place: ClaimPlace,
    right: Option<ClaimPlace>,
    with_past: bool,
) -> Result<ClaimVerdict, AllocError>
    requires order { IsInOrder sizes rows.now }
    requires beginners { AreBeginners sizes rows.now beginners.now }
    requires place { IsPlace rows.now place }
    requires right { ForSome right (IsKnown rows.now place) }
    ensures { IfOk result (Judges with_past rows.now place) }
{
    match right {
        Some(earlier) if earlier.process == place.process => Ok(ClaimVerdict {
            process: place.process,
            row: u64::from(place.row),
            verdict: Verdict::Right,
            past: Vec::new(alloc),
        }),
        _ => judge_claim(alloc, sizes, rows, beginners, place, with_past),
    }
}

/// The verdict on a claim, by the books of its causal past.
fn judge_claim(
    alloc: Global,
    sizes: Sizes,
    rows: &[LogRow],
    beginners: &[Option<bool>],
    place: ClaimPlace,
    with_past: bool,
) -> Result<ClaimVerdict, AllocError>
    requires order { IsInOrder sizes rows.now }
    requires beginners { AreBeginners sizes rows.now beginners.now }
    requires place { IsPlace rows.now place }
    ensures { IfOk result (Judges with_past rows.now place) }
{
    let books = past_of(alloc, sizes, rows, place)?;
    let verdict = left_of(&books, beginners, sizes);
    let is_early = verdict.is_early();
    Ok(ClaimVerdict {
        process: place.process,
        row: u64::from(place.row),
        verdict,
        past: counts_of(alloc, &books, sizes, with_past && is_early)?,
    })
}

/// How many rows each process has in the causal past of these books, or nothing if not asked.
fn counts_of(
    alloc: Global,
    books: &Books,
    sizes: Sizes,
    asked: bool,
) -> Result<Vec<PastRows>, AllocError>
    requires { AreSized sizes books.now }
    ensures { IfOk result (λ past.
        MatchBool asked (AreCounts sizes.processes books.now past.items) (past.items ≡ [])) }
{
    let mut past = Vec::new(alloc);
    if !asked {
        return Ok(past);
    }
    for process in 0..sizes.processes {
        let rows = books.rows[process as usize];
        if rows > 0 {
            past.push(PastRows { process, rows })?;
        }
    }
    Ok(past)
}

/// Whether one of these claims is right.
fn is_one_right(claims: &[ClaimVerdict]) -> bool
    ensures { result ≡ list_any (λ claim. not (is_early claim.verdict)) claims.now }
{
    claims.iter().any(|claim| !claim.verdict.is_early())
}

/// The end of a log in which no claim is right.
fn open_end(
    alloc: Global,
    sizes: Sizes,
    rows: &[LogRow],
    beginners: &[Option<bool>],
) -> Result<LogEnd, AllocError>
    requires order { IsInOrder sizes rows.now }
    requires beginners { AreBeginners sizes rows.now beginners.now }
    ensures { IfOk result (IsOpenEnd rows.now) }
{
    let books = books_of_all(alloc, sizes, rows)?;
    match left_of(&books, beginners, sizes) {
        Verdict::OnItsWay { channel, message } => Ok(LogEnd::OnItsWay { channel, message }),
        Verdict::Active { process } => Ok(LogEnd::Active { process }),
        Verdict::Right => match first_way(&books, sizes, true) {
            Some(_) => Ok(LogEnd::Unclaimed),
            None => Ok(LogEnd::Missed),
        },
    }
}

/// What is left after the rows of these books: a basic message in transit, else an active process, else nothing, which
/// is `Right`.
fn left_of(books: &Books, beginners: &[Option<bool>], sizes: Sizes) -> Verdict
    requires sized { AreSized sizes books.now }
    requires beginners { length beginners.now ≡ sizes.processes }
    ensures { IsLeftOver sizes beginners.now books.now result }
{
    if let Some(channel) = first_way(books, sizes, false) {
        let message = books.taken.count(Stream {
            channel,
            is_control: false,
        });
        return Verdict::OnItsWay {
            channel,
            message: u64::from(message),
        };
    }
    match first_busy(books, beginners, sizes) {
        Some(process) => Verdict::Active { process },
        None => Verdict::Right,
    }
}

/// The least channel that has a message in transit by these books: a control message if `is_control`, else a basic one.
fn first_way(books: &Books, sizes: Sizes, is_control: bool) -> Option<u32>
    requires { AreSized sizes books.now }
    ensures { IsFirstWay is_control sizes.channels books.now result }
{
    for channel in 0..sizes.channels {
        let stream = Stream {
            channel,
            is_control,
        };
        if books.taken.count(stream) < books.sent.count(stream) {
            return Some(channel);
        }
    }
    None
}

/// The least process that is active by these books.
fn first_busy(books: &Books, beginners: &[Option<bool>], sizes: Sizes) -> Option<u32>
    requires sized { AreSized sizes books.now }
    requires beginners { length beginners.now ≡ sizes.processes }
    ensures { IsFirstBusy sizes.processes beginners.now books.now result }
{
    for process in 0..sizes.processes {
        if is_busy(books.said[process as usize], beginners[process as usize]) {
            return Some(process);
        }
    }
    None
}

/// Whether a process is active: as its rows in the past say, or else as it begins.
fn is_busy(said: Said, begins: Option<bool>) -> bool
    ensures { result ≡ busy_at said begins }
{
    match said {
        Said::Active => true,
        Said::Passive => false,
        Said::Unsaid => begins == Some(true),
    }
}
