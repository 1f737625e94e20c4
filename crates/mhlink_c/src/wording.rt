//! Texts of statuses.

ghost use Rattle.std.specs.Prelude.{◌≡◌, ◌≢◌, ℕ, List, Some, None, drop, IfErr, IfNone, IfSome, OnErr, OnOk};
ghost use Rattle.mhlink_c.specs.Buffers.{IsCopied};
ghost use Rattle.mhlink_c.specs.Statuses.{part_of, status_of as number_of};
ghost use Rattle.mhlink_c.specs.Wording.{IsTold, RefusesWords, beside, fault_words, inputs, others, refusals, with_part, words_of as its_words};
ghost use Rattle.mhlink_c.specs.declared.failure.Failure.{Failure as FaultOf};
ghost use Rattle.mhlink_c.specs.declared.failure.Failure.TheVariants.{Short};

use crate::buffers::copy;
use crate::failure::{Failure, status as status_of};
use std::alloc::Global;

/// Copies to `buffer` the text of a status, as `mhlink` prints it (docs/FAULTS.md), followed by
/// `part` if that is not 0: `refused 8 PlanRefused 3`, `fault 7 Tree 2`. `count` gets the number of
/// bytes, also if `buffer` is too short. The rest of `buffer` is left unmodified. A number of no
/// status is unknown.
#[unsafe(no_mangle)]
pub extern "C" fn mhlink_fault_text(
    alloc: Global,
    status: u32,
    part: u64,
    buffer: &mut [u8],
    count: &mut usize,
) -> u32
    ensures told { result ≡ 0 → (words : List ℕ) × ((its_words status ≡ Some words)
        × IsCopied (with_part words part) count.new buffer.new) }
    ensures faults { result ≡ 0 → (e : FaultOf) → IsTold e → status ≡ number_of e
        → part ≡ part_of e → IsCopied (fault_words e) count.new buffer.new }
    ensures refused { result ≢ 0 → (e : FaultOf) × ((result ≡ number_of e)
        × RefusesWords status part count.new buffer.old e) }
    ensures untouched { result ≢ 0 → buffer.new ≡ buffer.old }
    ensures rest { result ≡ 0 → drop count.new buffer.new ≡ drop count.new buffer.old }
    ensures uncounted { result ≢ 0 → result ≢ number_of Short → count.new ≡ count.old }
{
    status_of(word(alloc, status, part, buffer, count))
}

fn word(
    alloc: Global,
    status: u32,
    part: u64,
    buffer: &mut [u8],
    count: &mut usize,
) -> Result<(), Failure>
    ensures told { OnOk result ((words : List ℕ) × ((its_words status ≡ Some words)
        × IsCopied (with_part words part) count.new buffer.new)) }
    ensures refused { IfErr result (RefusesWords status part count.new buffer.old) }
    ensures untouched { OnErr result (buffer.new ≡ buffer.old) }
    ensures rest { OnOk result (drop count.new buffer.new ≡ drop count.new buffer.old) }
    ensures uncounted { IfErr result (λ e. e ≢ Short → count.new ≡ count.old) }
{
    let words = words_of(status).ok_or(Failure::Unknown)?;
    if part == 0 {
        return copy(words.as_bytes(), buffer, count);
    }
    let told = format!(in alloc; "{words} {part}")?;
    copy(told.as_bytes(), buffer, count)
}

// Returns the text of a status, or `None` for another number.
fn words_of(status: u32) -> Option<&'static str>
    ensures words { IfSome result (λ words. its_words status ≡ Some words.now) }
    ensures none { IfNone result (its_words status ≡ None) }
{
    refusal_words(status)
        .or(input_words(status))
        .or(other_words(status))
}

// Returns the text of success, or of a rejection.
fn refusal_words(status: u32) -> Option<&'static str>
    ensures words { IfSome result (λ words. beside refusals status ≡ Some words.now) }
    ensures none { IfNone result (beside refusals status ≡ None) }
{
    match status {
        0 => Some("done"),
        1 => Some("refused 1 NoMemory"),
        2 => Some("refused 2 HistoryFull"),
        3 => Some("refused 3 NoSite"),
        4 => Some("refused 4 NoPoint"),
        5 => Some("refused 5 WrongType"),
        6 => Some("refused 6 NoSnapshot"),
        7 => Some("refused 7 NoPlan"),
        8 => Some("refused 8 PlanRefused"),
        9 => Some("refused 9 OldPlan"),
        10 => Some("refused 10 TotalTooLarge"),
        11 => Some("refused 11 LedgerFull"),
        12 => Some("refused 12 GainTooLarge"),
        13 => Some("refused 13 NoWorker"),
        14 => Some("refused 14 WrongLevel"),
        _ => None,
    }
}

// Returns the text of a fault of an input.
fn input_words(status: u32) -> Option<&'static str>
    ensures words { IfSome result (λ words. beside inputs status ≡ Some words.now) }
    ensures none { IfNone result (beside inputs status ≡ None) }
{
    match status {
        102 => Some("fault 2 TooLong"),
        103 => Some("fault 3 NotJson"),
        104 => Some("fault 4 BadShape"),
        105 => Some("fault 5 BadValue"),
        106 => Some("fault 6 UnknownShared"),
        107 => Some("fault 7 Tree"),
        108 => Some("fault 8 Definition"),
        109 => Some("fault 9 Problem"),
        112 => Some("fault 12 BadType"),
        113 => Some("fault 13 UnknownSite"),
        114 => Some("fault 14 UnknownPoint"),
        115 => Some("fault 15 PointTwice"),
        116 => Some("fault 16 NeedTwice"),
        _ => None,
    }
}

// Returns the text of a fault of a problem, or of a status of this library alone.
fn other_words(status: u32) -> Option<&'static str>
    ensures words { IfSome result (λ words. beside others status ≡ Some words.now) }
    ensures none { IfNone result (beside others status ≡ None) }
{
    match status {
        202 => Some("fault 9 Problem 2"),
        203 => Some("fault 9 Problem 3"),
        204 => Some("fault 9 Problem 4"),
        205 => Some("fault 9 Problem 5"),
        206 => Some("fault 9 Problem 6"),
        207 => Some("fault 9 Problem 7"),
        208 => Some("fault 9 Problem 8"),
        301 => Some("a name, a key or a number of nothing that is there"),
        302 => Some("the buffer is too short"),
        303 => Some("a value of no kind, out of its kind's range, or whose text is not passed"),
        304 => Some("a limit, or the number of workers, is out of its range"),
        _ => None,
    }
}
