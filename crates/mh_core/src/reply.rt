//! Replies of a machine.

use crate::install_report::InstallReport;
use crate::refusal::Refusal;
use crate::shared_plan::SharedPlan;
use mh_type::Outcome;
use std::fmt;

/// The reply to an event.
#[derive(Debug, Drop)]
pub enum Reply {
    /// A call was made: its outcome, and the number of nodes evaluated.
    Called { outcome: Outcome, steps: u128 },
    /// The change was made.
    Done,
    /// A snapshot was taken, and has this number, from 1.
    Taken { snapshot: usize },
    /// The plan was published, and has this number, from 1.
    Published { number: usize, plan: SharedPlan },
    /// The plan was installed, with the results in the report.
    Installed(InstallReport),
    /// The event was refused: the first test that failed, or lack of memory.
    Refused(Refusal),
}

/// Writes the reply as the program prints it, but without the numbers of points: `int 100`, `ok`,
/// `snapshot 1`, `plan 1 links 0 points 0 value 3 flow 4`, `installed linked 1 skipped 0`, `refused
/// 3 NoSite`.
impl fmt::Display for Reply {
    ghost use Rattle.std.specs.Prelude.{Some};
    ghost use Rattle.mh_core.specs.Display.{reply_text};

    ghost output = { λ reply. Some (reply_text reply) };

    fn fmt<W: fmt::Write>(&self, f: &mut fmt::Formatter<W>) -> fmt::Result {
        match self {
            Reply::Called { outcome, .. } => write!(f, "{outcome}"),
            Reply::Done => write!(f, "ok"),
            Reply::Taken { snapshot } => write!(f, "snapshot {snapshot}"),
            Reply::Published { number, plan } => write!(f, "plan {number} {}", plan.plan()),
            Reply::Installed(report) => write!(f, "installed {report}"),
            Reply::Refused(refusal) => write!(f, "refused {refusal}"),
        }
    }
}
