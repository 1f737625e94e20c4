//! Why an exported function failed, and the status that C gets for it.

ghost use Rattle.std.specs.Prelude.{◌≡◌, ◌≢◌, ◌≤◌, IfErr, IfOk, OnErr, OnOk};
ghost use Rattle.mhlink_c.specs.Statuses.{input_number as number_of_input, input_part as part_of_input, part_of, status_of};

use mh_core::{NoMemory, ProblemFault, Refusal};
use mh_json::{Fault as TextualFault, InputFault, Misread, TextFault};
use std::alloc::{AllocError, AllocFailed};

/// Why an exported function failed.
#[derive(Clone, Copy, Debug)]
pub(crate) enum Failure {
    /// The machine rejected the event.
    Refused(Refusal),
    /// A text has a fault.
    Input(InputFault),
    /// The links and costs do not make a problem.
    Problem(ProblemFault),
    /// There is no such name, key or number.
    Unknown,
    /// The caller's buffer is too short.
    Short,
    /// An unknown kind, a number out of its kind's range, or a text that is longer than the bytes
    /// that are passed.
    BadValue,
    /// A limit, or the number of workers, is out of its range.
    BadLimits,
}

impl Failure {
    /// Returns the status, never 0: the rejection's own number, 100 plus an input fault's, 200 plus
    /// a problem fault's, and 301 to 304.
    #[tactic(auto, using(crate::proofs::Statuses::some_number))]
    pub(crate) fn number(self) -> u32
        ensures value { result ≡ status_of self }
        ensures some { result ≢ 0 }
    {
        match self {
            Failure::Refused(refusal) => u32::from(refusal.number()),
            Failure::Input(fault) => 100 + input_number(fault),
            Failure::Problem(fault) => 200 + u32::from(fault.number()),
            Failure::Unknown => 301,
            Failure::Short => 302,
            Failure::BadValue => 303,
            Failure::BadLimits => 304,
        }
    }

    /// Returns the detail that the status leaves open: the number of the cause, the newest plan, or
    /// 0.
    pub(crate) fn part(self) -> u64
        ensures value { result ≡ part_of self }
    {
        match self {
            Failure::Refused(Refusal::PlanRefused(cause)) => u64::from(cause.number()),
            Failure::Refused(Refusal::OldPlan(newest)) => newest as u64,
            Failure::Input(fault) => input_part(fault),
            _ => 0,
        }
    }
}

// Returns the number under "Faults of inputs" of docs/FAULTS.md.
fn input_number(fault: InputFault) -> u32
    ensures value { result ≡ number_of_input fault }
    ensures few { result ≤ 16 }
{
    match fault {
        InputFault::NoMemory => 1,
        InputFault::TooLong => 2,
        InputFault::NotJson => 3,
        InputFault::BadShape => 4,
        InputFault::BadValue => 5,
        InputFault::UnknownShared => 6,
        InputFault::Tree(_) => 7,
        InputFault::Definition(_) => 8,
        InputFault::Problem(_) => 9,
        InputFault::BadType(_) => 12,
        InputFault::UnknownSite => 13,
        InputFault::UnknownPoint => 14,
        InputFault::PointTwice => 15,
        InputFault::NeedTwice => 16,
    }
}

// Returns the number of the cause of an input's fault, or 0.
fn input_part(fault: InputFault) -> u64
    ensures value { result ≡ part_of_input fault }
{
    match fault {
        InputFault::Tree(cause) => u64::from(cause.number()),
        InputFault::Definition(cause) => u64::from(cause.number()),
        InputFault::Problem(cause) => u64::from(cause.number()),
        InputFault::BadType(cause) => u64::from(cause.number()),
        _ => 0,
    }
}

impl From<Refusal> for Failure {
    ghost use Rattle.std.specs.Prelude.{◌≡◌};
    ghost use Rattle.mhlink_c.specs.declared.failure.Failure.TheVariants.{Refused};

    ghost from_gives = { λ told e. e ≡ Refused told };

    fn from(refusal: Refusal) -> Failure {
        Failure::Refused(refusal)
    }
}

impl From<NoMemory> for Failure {
    ghost use Rattle.std.specs.Prelude.{◌≡◌};
    ghost use Rattle.mhlink_c.specs.Statuses.{no_memory};

    ghost from_gives = { λ _ e. e ≡ no_memory };

    fn from(_e: NoMemory) -> Failure {
        Failure::Refused(Refusal::NoMemory)
    }
}

impl From<AllocError> for Failure {
    ghost use Rattle.std.specs.Prelude.{◌≡◌};
    ghost use Rattle.mhlink_c.specs.Statuses.{no_memory};

    ghost from_gives = { λ _ e. e ≡ no_memory };

    fn from(_e: AllocError) -> Failure {
        Failure::Refused(Refusal::NoMemory)
    }
}

impl<T: Drop> From<AllocFailed<T>> for Failure {
    ghost use Rattle.std.specs.Prelude.{◌≡◌};
    ghost use Rattle.mhlink_c.specs.Statuses.{no_memory};

    ghost from_gives = { λ _ e. e ≡ no_memory };

    fn from(_e: AllocFailed<T>) -> Failure {
        Failure::Refused(Refusal::NoMemory)
    }
}

impl From<TextualFault> for Failure {
    ghost use Rattle.std.specs.Prelude.{◌≡◌};
    ghost use Rattle.mhlink_c.specs.Statuses.{of_text};

    ghost from_gives = { λ fault e. e ≡ of_text fault };

    fn from(fault: TextualFault) -> Failure {
        match fault.kind {
            TextFault::Input(cause) => Failure::from(cause),
            _ => Failure::Refused(Refusal::NoMemory),
        }
    }
}

impl From<InputFault> for Failure {
    ghost use Rattle.std.specs.Prelude.{◌≡◌};
    ghost use Rattle.mhlink_c.specs.Statuses.{of_input};

    ghost from_gives = { λ fault e. e ≡ of_input fault };

    fn from(fault: InputFault) -> Failure {
        match fault {
            InputFault::NoMemory => Failure::Refused(Refusal::NoMemory),
            _ => Failure::Input(fault),
        }
    }
}

impl From<Misread> for Failure {
    ghost use Rattle.std.specs.Prelude.{◌≡◌};
    ghost use Rattle.mhlink_c.specs.Statuses.{of_input};

    ghost from_gives = { λ misread e. e ≡ of_input misread.fault };

    fn from(misread: Misread) -> Failure {
        Failure::from(misread.fault())
    }
}

impl From<ProblemFault> for Failure {
    ghost use Rattle.std.specs.Prelude.{◌≡◌};
    ghost use Rattle.mhlink_c.specs.Statuses.{of_problem};

    ghost from_gives = { λ fault e. e ≡ of_problem fault };

    fn from(fault: ProblemFault) -> Failure {
        match fault {
            ProblemFault::NoMemory => Failure::Refused(Refusal::NoMemory),
            _ => Failure::Problem(fault),
        }
    }
}

/// Returns the status of a result: 0, or the fault's number.
pub(crate) fn status<T: Drop>(answer: Result<T, Failure>) -> u32
    ensures ok { OnOk answer (result ≡ 0) }
    ensures refused { OnErr answer (result ≢ 0) }
    ensures status { IfErr answer (λ e. result ≡ status_of e) }
{
    match answer {
        Ok(_) => 0,
        Err(fault) => fault.number(),
    }
}

/// Returns the status of a result; `part` gets the detail of its fault, or 0.
pub(crate) fn write_part<T: Drop>(answer: Result<T, Failure>, part: &mut u64) -> u32
    ensures ok { OnOk answer (result ≡ 0) }
    ensures no_part { OnOk answer (part.new ≡ 0) }
    ensures refused { OnErr answer (result ≢ 0) }
    ensures status { IfErr answer (λ e. result ≡ status_of e) }
    ensures part { IfErr answer (λ e. part.new ≡ part_of e) }
{
    match answer {
        Ok(_) => {
            *part = 0;
            0
        }
        Err(fault) => {
            *part = fault.part();
            fault.number()
        }
    }
}

/// Does the same, and writes the answer to `out`.
pub(crate) fn write_change(answer: Result<u64, Failure>, out: &mut u64, part: &mut u64) -> u32
    ensures ok { OnOk answer (result ≡ 0) }
    ensures answer { IfOk answer (λ n. out.new ≡ n) }
    ensures no_part { OnOk answer (part.new ≡ 0) }
    ensures refused { OnErr answer (result ≢ 0) }
    ensures status { IfErr answer (λ e. result ≡ status_of e) }
    ensures part { IfErr answer (λ e. part.new ≡ part_of e) }
    ensures kept { OnErr answer (out.new ≡ out.old) }
{
    if let Ok(number) = answer {
        *out = number;
    }
    write_part(answer, part)
}

/// Returns the status of a result, and writes the answer, if there is one, to `out`.
pub(crate) fn write_answer(answer: Result<u64, Failure>, out: &mut u64) -> u32
    ensures ok { OnOk answer (result ≡ 0) }
    ensures answer { IfOk answer (λ n. out.new ≡ n) }
    ensures refused { OnErr answer (result ≢ 0) }
    ensures status { IfErr answer (λ e. result ≡ status_of e) }
    ensures kept { OnErr answer (out.new ≡ out.old) }
{
    match answer {
        Ok(number) => {
            *out = number;
            0
        }
        Err(fault) => fault.number(),
    }
}
