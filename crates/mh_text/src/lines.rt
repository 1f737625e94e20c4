//! Lines of text, one for each reply.
ghost use Rattle.std.specs.Prelude.{◌≡◌, ◌++◌, string_bytes, codes, IfOk, OnOk, ◌<◌, length};
ghost use Rattle.std.specs.List.{flat_map, slice_index_or};
ghost use Rattle.mh_site.specs.Defined.{point_at};
ghost use Rattle.mh_json.specs.declared.json.step.Step.TheVariants.{Plan as no_step};
ghost use Rattle.mh_json.specs.StepNumbers.{number_named};
ghost use Rattle.mh_text.specs.Lines.{names_text, published_text, installed_text, reply_text, line_of};

pub(crate) mod plans;
pub(crate) mod report;
pub(crate) mod verdict;

use mh_base::Numbers;
use mh_cert::Plan;
use mh_core::{InstallReport, Reply};
use mh_json::Script;
use mh_network::carried;
use mh_site::Definition;
use std::alloc::{AllocError, Global};

/// Returns the name of a point; the empty text if it does not exist.
fn point_name(definition: &Definition, point: u32) -> &str
    ensures value { result.now ≡ (point_at definition.now point).name }
{
    let point = point as usize;
    if point < definition.points().len() {
        definition.point_name(point)
    } else {
        ""
    }
}

/// Appends a comma and a name for each point.
fn push_names(out: &mut String, definition: &Definition, points: &[u32]) -> Result<(), AllocError>
    ensures value { OnOk result (string_bytes out.new
        ≡ string_bytes out.old ++ flat_map (λ q. codes "," ++ (point_at definition.now q).name)
        points.now) }
{
    for point in points {
        out.push(',')?;
        out.push_str(point_name(definition, *point))?;
    }
    Ok(())
}

/// Returns the names of points with commas between them, or a dash if there are none.
fn names_line(alloc: Global, definition: &Definition, points: &[u32]) -> Result<String, AllocError>
    ensures value { IfOk result (λ s. string_bytes s ≡ names_text definition.now points.now) }
{
    let [first, rest @ ..] = points else {
        return String::from_str(alloc, "-");
    };
    let mut line = String::from_str(alloc, point_name(definition, *first))?;
    push_names(&mut line, definition, rest)?;
    Ok(line)
}

/// Returns the text of the publication of the plan with this number, for this snapshot.
fn published_line(
    alloc: Global,
    definition: &Definition,
    snapshot: usize,
    number: usize,
    plan: &Plan,
) -> Result<String, AllocError>
    ensures value { IfOk result (λ s. string_bytes s
        ≡ published_text definition.now snapshot number plan.now) }
{
    let numbers = plan.links.as_slice();
    let links = Numbers { numbers };
    let points = names_line(alloc, definition, plan.points.as_slice())?;
    let flow = carried(plan.flow.as_slice(), plan.charges.as_slice());
    format!(in alloc;
        "plan {number} snapshot {snapshot} links {links} points {points} value {} flow {flow}",
        plan.value
    )
}

/// Returns the text of the installation of the plan with this number.
fn installed_line(alloc: Global, plan: usize, report: &InstallReport) -> Result<String, AllocError>
    ensures value { IfOk result (λ s. string_bytes s ≡ installed_text plan report.now) }
{
    format!(in alloc; "install {plan} {report}")
}

fn reply_line(
    alloc: Global,
    definition: &Definition,
    named: usize,
    reply: &Reply,
) -> Result<String, AllocError>
    ensures value { IfOk result (λ s. string_bytes s ≡ reply_text definition.now named reply.now) }
{
    match reply {
        Reply::Called { outcome, .. } => format!(in alloc; "{outcome}"),
        Reply::Done => format!(in alloc; "ok"),
        Reply::Taken { snapshot } => format!(in alloc; "snapshot {snapshot}"),
        Reply::Published { number, plan } => {
            published_line(alloc, definition, named, *number, plan.plan())
        }
        Reply::Installed(report) => installed_line(alloc, named, report),
        Reply::Refused(refusal) => format!(in alloc; "refused {refusal}"),
    }
}

/// Returns the line of a reply to a step, given the number that the step names.
pub(crate) fn line(
    alloc: Global,
    definition: &Definition,
    named: usize,
    reply: &Reply,
) -> Result<String, AllocError>
    ensures value { IfOk result (λ s. string_bytes s ≡ line_of definition.now (named, reply.now)) }
{
    let mut line = reply_line(alloc, definition, named, reply)?;
    line.push('\n')?;
    Ok(line)
}

/// Returns the line of a reply to a step of a script, given the step's number from 0: the script
/// has the names of points, and the snapshot or the plan that the step names. Fails only if an
/// allocation is refused.
pub fn render(
    alloc: Global,
    script: &Script,
    step: usize,
    reply: &Reply,
) -> Result<String, AllocError>
    requires inside { step < length script.now.steps }
    ensures value { IfOk result (λ s. string_bytes s
        ≡ line_of script.now.definition
        (number_named (slice_index_or script.now.steps step (no_step 0)), reply.now)) }
{
    let named = script.steps.as_slice()[step].number();
    line(alloc, &script.definition, named, reply)
}
