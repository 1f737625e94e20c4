//! Requests: the meaning of a command line.
ghost use Rattle.std.specs.Prelude.{◌≡◌, ◌<◌, ◌≤◌, ◌⊎◌, [], ◌∷◌, List, ℕ, None, Some, false, OnOk, IfOk, IfErr, IfSome, codes, map, true};
ghost use Rattle.clap.specs.Words.{app_of, fault_of, found_of, kind_of, new_app, rows_of, rule_of, subcommand_rows_of, with_rule};
ghost use Rattle.clap.specs.declared.builder.command.Command.TheViews.{out-Command};
ghost use Rattle.clap.specs.declared.error.kind.ErrorKind.{ErrorKind};
ghost use Rattle.mh_base.specs.Limits.{most_workers};
ghost use Rattle.mh_text.specs.declared.streams.run.RunOptions.{RunOptions};
ghost use Rattle.mh_stress.specs.Stress.{AreLawful};
ghost use Rattle.mh_stress.specs.declared.stress.StressOptions.{StressOptions};
ghost use Rattle.mh_command.specs.CommandLine.{root_app, plain_app, further_app, run_app, check_app, plan_app, stress_app, profile_app, program, workers_rule, callers_rule, rounds_rule, AreOptions, AreProfiled, AreStressed, AreWorkers, AsksFor, AsksNoExplanation, IsOfProfile, IsReadFor, IsReported, IsRequest, IsNamed, HasWorkers, SaysNoExplanation};
ghost use Rattle.mh_command.specs.Readings.{form_of, refused_at};
ghost use Rattle.mh_profile.specs.declared.planning.ProfileOptions.{ProfileOptions};
ghost use Rattle.mh_command.specs.declared.options.Reading.{Reading};
ghost use Rattle.mh_command.specs.declared.request.Asked.{Asked};

use crate::flags::{flag, with_option};
use crate::options::{Reading, plain_reading_of, reading_of, with_explain, with_reading};
use clap::{Arg, ArgMatches, Command, Error, value_parser};
use mh_base::MOST_WORKERS;
use mh_explain::InputForm;
use mh_profile::ProfileOptions;
use mh_stress::{MOST_ROUNDS, StressOptions};
use mh_text::{PlanOptions, RunOptions};
use std::alloc::{AllocError, Global};
use std::convert::AsStr;

/// The request of a command line: one of the subcommands.
#[derive(Clone, Copy, Debug, PartialEq, Eq)]
pub enum Request {
    /// `mhlink run`: the lines of a script.
    Run(RunOptions),
    /// `mhlink check`: whether a plan is optimal for its problem.
    Check,
    /// `mhlink check --profile`: the same for the problem of a profile.
    CheckProfile,
    /// `mhlink plan`: the optimal plan of a problem.
    Plan(PlanOptions),
    /// `mhlink stress`: the sums of a script on running threads.
    Stress(StressOptions),
    /// `mhlink profile`: the optimal plan of a profile, by its names.
    Profile(ProfileOptions),
}

impl Request {
    /// Returns the form of its input, or `None` if the input is the lines of a profile.
    pub(crate) fn form(self) -> Option<InputForm>
        ensures value { result ≡ form_of self }
    {
        match self {
            Request::Run(_) | Request::Stress(_) => Some(InputForm::Script),
            Request::Check => Some(InputForm::Claim),
            Request::Plan(_) => Some(InputForm::Problem),
            Request::CheckProfile | Request::Profile(_) => None,
        }
    }
}

/// The request of a command line, and how to read its input.
#[derive(Clone, Copy, Debug, PartialEq, Eq)]
pub struct Asked {
    pub request: Request,
    pub reading: Reading,
}

impl Asked {
    /// Returns whether to read the input into memory before the work: its fault is to be explained,
    /// or its keys are looked at.
    pub(crate) fn reads_whole(self) -> bool
        ensures unrefused { result ≡ false → (input : List ℕ) → refused_at self input ≡ None }
    {
        !self.reading.is_plain()
    }
}

/// The end of `mhlink --help`.
const AFTER_HELP: &str = "\
With --explain, a command says where an error in its input is, and why it is
one. All but `profile` and `check --profile` also report unknown keys, and
reject such input with --strict.

Examples:
  mhlink run --explain < examples/first-calls.json
  mhlink check < examples/check-shared-point.json
  mhlink plan --certificate < examples/plan-shared-point.json
  mhlink stress --rounds 1000 < examples/stress-calls.json
  mhlink profile < examples/profiles/shop.jsonl

Statuses: 0 done, 1 the input or its plan is refused, 2 the command line is
wrong, 3 a read or a write failed, 4 out of memory, or too many readers of the
published state. Formats are described in docs/FORMATS.md, faults and refusals
in docs/FAULTS.md.";

/// The end of `mhlink run --help`.
const AFTER_RUN: &str = "\
Reads a script from standard input: a JSON object with a definition (points,
shared trees, sites), a number of workers, and events. Each event gets one line
on standard output. If the script has a fault, nothing is run: the fault is one
line on standard error, after which --explain says where it is and why. It also
explains refused events.

Example:
  mhlink run --explain --report < examples/first-calls.json";

/// What `mhlink check --help` ends with.
const AFTER_CHECK: &str = "\
Reads a JSON object with a problem and a plan from standard input, and prints
`accepted`, or `refused` with the number and the name of the first part that is
wrong. With --profile, it reads a profile, as `mhlink profile` does, followed
by a plan on the last line, as `mhlink profile --certificate` prints it.
Unknown keys of these are ignored: --strict has no effect then, and --explain
explains faults of the profile only.

Examples:
  mhlink check < examples/check-shared-point.json
  mhlink check --profile < examples/profiles/shop-with-plan.jsonl";

/// What `mhlink plan --help` ends with.
const AFTER_PLAN: &str = "\
Reads a problem from standard input, a JSON object with costs and links, and
prints its plan on one line: links, points, value, and the sum of the flow that
proves it optimal.

Example:
  mhlink plan --workers 4 --certificate < examples/plan-shared-point.json";

/// What `mhlink stress --help` ends with.
const AFTER_STRESS: &str = "\
Reads a script from standard input, as `mhlink run` does. Each worker makes its
calls in a thread of its own and flushes, once per round. Meanwhile, each of
the other events except flushes is made once. Refused calls, flushes and events
are skipped; --explain reports how many calls and flushes were refused, and
why. In the end the hits of all links are added up; --report adds a line for
each point, site and link.

Example:
  mhlink stress --workers 2 --rounds 1000 < examples/stress-calls.json";

/// What `mhlink profile --help` ends with.
const AFTER_PROFILE: &str = "\
Reads a profile from standard input: one line of JSON for each named point and
link, each point before the links that need it. Prints the links that the
optimal plan selects, those that it leaves and why, and what each point is
paid. A profile has at most 1048576 points, 1048576 links and 64 MiB. A fault
is one line on standard error with its line number, after which --explain shows
that line and the reason. With --explain the input is kept in memory.

With --sweep, the line of each eligible link ends with the scale of the costs
up to which it is selected: a link with `until 8.315` is selected while all
costs are below 8.315 times these.

Examples:
  mhlink profile --explain --certificate < examples/profiles/shop.jsonl
  mhlink profile --sweep < examples/profiles/shop.jsonl";

fn check_command<'a>(alloc: Global) -> Result<Command<'a>, AllocError>
    ensures app { IfOk result (λ c. app_of c ≡ check_app) }
    ensures local { IfOk result (λ c. (out-Command c).has_globals ≡ false) }
{
    let command = Command::new(alloc, "check")
        .about("Check a plan against its problem")
        .override_usage("mhlink check [OPTIONS] < FILE")
        .after_help(AFTER_CHECK);
    let profile = flag(
        alloc,
        "profile",
        "Check the plan on the last line against the profile before it",
    );
    let command = with_reading(alloc, command)?;
    with_option(command, profile)
}

/// Returns the option for the number of workers that plan.
fn workers_option<'a>(alloc: Global) -> Arg<'a>
    ensures rule { rule_of result ≡ workers_rule }
    ensures own { result.global ≡ false }
{
    Arg::new(alloc, "workers")
        .long("workers")
        .value_name("N")
        .default_value("1")
        .value_parser(value_parser!(u8).range(1..=64))
        .help("Number of planning threads, 1 to 64")
}

fn run_command<'a>(alloc: Global) -> Result<Command<'a>, AllocError>
    ensures app { IfOk result (λ c. app_of c ≡ run_app) }
    ensures local { IfOk result (λ c. (out-Command c).has_globals ≡ false) }
{
    let command = Command::new(alloc, "run")
        .about("Run a script, and print one line per event")
        .override_usage("mhlink run [OPTIONS] < FILE")
        .after_help(AFTER_RUN);
    let command = with_reading(alloc, command)?;
    let report = flag(
        alloc,
        "report",
        "Print the final state of every point, site and link",
    );
    with_option(command, report)
}

fn plan_command<'a>(alloc: Global) -> Result<Command<'a>, AllocError>
    ensures app { IfOk result (λ c. app_of c ≡ plan_app) }
    ensures local { IfOk result (λ c. (out-Command c).has_globals ≡ false) }
{
    let command = Command::new(alloc, "plan")
        .about("Plan a problem, and print the plan on one line")
        .override_usage("mhlink plan [OPTIONS] < FILE")
        .after_help(AFTER_PLAN);
    let certificate = flag(
        alloc,
        "certificate",
        "Also print the plan as JSON, with its flow",
    );
    let phases = flag(
        alloc,
        "phases",
        "Also print the number of phases of the flow, and its bound",
    );
    let command = with_reading(alloc, command)?;
    let command = with_option(command, workers_option(alloc))?;
    let command = with_option(command, certificate)?;
    let command = with_option(command, phases)?;
    Ok(command)
}

/// Returns the option for the number of workers that call.
fn callers_option<'a>(alloc: Global) -> Arg<'a>
    ensures rule { rule_of result ≡ callers_rule }
    ensures own { result.global ≡ false }
{
    Arg::new(alloc, "workers")
        .long("workers")
        .value_name("N")
        .value_parser(value_parser!(u8).range(1..=64))
        .help("Number of calling threads, 1 to 64 [default: the script's]")
}

/// Returns the option for the number of rounds.
fn rounds_option<'a>(alloc: Global) -> Arg<'a>
    ensures rule { rule_of result ≡ rounds_rule }
    ensures own { result.global ≡ false }
{
    Arg::new(alloc, "rounds")
        .long("rounds")
        .value_name("N")
        .default_value("1")
        .value_parser(value_parser!(u32).range(1..=1_000_000))
        .help("Rounds of calls per worker, 1 to 1000000")
}

fn stress_command<'a>(alloc: Global) -> Result<Command<'a>, AllocError>
    ensures app { IfOk result (λ c. app_of c ≡ stress_app) }
    ensures local { IfOk result (λ c. (out-Command c).has_globals ≡ false) }
{
    let command = Command::new(alloc, "stress")
        .about("Run a script's calls in threads, and add up their results")
        .override_usage("mhlink stress [OPTIONS] < FILE")
        .after_help(AFTER_STRESS);
    let report = flag(
        alloc,
        "report",
        "Print the final state of every point, site and link",
    );
    let command = with_reading(alloc, command)?;
    let command = with_option(command, callers_option(alloc))?;
    let command = with_option(command, rounds_option(alloc))?;
    let command = with_option(command, report)?;
    Ok(command)
}

fn profile_command<'a>(alloc: Global) -> Result<Command<'a>, AllocError>
    ensures app { IfOk result (λ c. app_of c ≡ profile_app) }
    ensures local { IfOk result (λ c. (out-Command c).has_globals ≡ false) }
{
    let command = Command::new(alloc, "profile")
        .about("Plan a profile, and report the decision for every link and point")
        .override_usage("mhlink profile [OPTIONS] < FILE")
        .after_help(AFTER_PROFILE);
    let certificate = flag(
        alloc,
        "certificate",
        "Also print the plan as JSON, by number, with its flow",
    );
    let sweep = flag(
        alloc,
        "sweep",
        "Also print the cost scale up to which a link is selected",
    );
    let help = "Explain errors: show the line and the reason";
    let command = with_explain(alloc, command, help)?;
    let command = with_option(command, workers_option(alloc))?;
    let command = with_option(command, certificate)?;
    let command = with_option(command, sweep)?;
    Ok(command)
}

/// Returns the command line without subcommands.
fn root_command<'a>(alloc: Global) -> Command<'a>
    ensures app { app_of result ≡ root_app }
{
    Command::new(alloc, "mhlink")
        .about("Dynamic calls in the style of java.lang.invoke, and provably optimal plans")
        .version("0.1.0")
        .after_help(AFTER_HELP)
        .subcommand_required(true)
}

/// Returns the command line with its first two subcommands.
fn plain_command<'a>(alloc: Global) -> Result<Command<'a>, AllocError>
    ensures app { IfOk result (λ c. app_of c ≡ plain_app) }
{
    root_command(alloc)
        .subcommand(run_command(alloc)?)?
        .subcommand(check_command(alloc)?)
}

/// Returns the command line with the next two.
fn further_command<'a>(alloc: Global) -> Result<Command<'a>, AllocError>
    ensures app { IfOk result (λ c. app_of c ≡ further_app) }
{
    plain_command(alloc)?
        .subcommand(plan_command(alloc)?)?
        .subcommand(stress_command(alloc)?)
}

/// Returns the command lines that the program takes.
fn build<'a>(alloc: Global) -> Result<Command<'a>, AllocError>
    ensures app { IfOk result (λ c. app_of c ≡ program) }
{
    further_command(alloc)?.subcommand(profile_command(alloc)?)
}

/// Returns the options after `run`.
fn run_options_of(matches: &ArgMatches) -> RunOptions
    ensures value { (options : RunOptions) → IsReported options (rows_of (found_of matches.now))
        → result ≡ options }
{
    RunOptions {
        report: matches.get_flag("report"),
    }
}

/// Returns the number of workers that plan, or `None` if it is not 1 to 64, which clap refuses
/// itself.
fn workers_of(matches: &ArgMatches) -> Option<usize>
    ensures value { (workers : ℕ) → AreWorkers workers (rows_of (found_of matches.now))
        → result ≡ Some workers }
    ensures some { IfSome result (λ workers. 0 < workers) }
    ensures few { IfSome result (λ workers. workers ≤ most_workers) }
{
    let workers = matches.get_one::<u8>("workers")?;
    let workers = usize::from(workers);
    if workers == 0 || workers > MOST_WORKERS as usize {
        return None;
    }
    Some(workers)
}

/// Returns the options after `plan`, or `None` if clap refuses the number of workers itself.
fn options_of(matches: &ArgMatches) -> Option<PlanOptions>
    ensures value { (options : PlanOptions) → AreOptions options (rows_of (found_of matches.now))
        → result ≡ Some options }
    ensures some { IfSome result (λ options. 0 < options.workers) }
    ensures few { IfSome result (λ options. options.workers ≤ most_workers) }
{
    Some(PlanOptions {
        workers: workers_of(matches)?,
        certificate: matches.get_flag("certificate"),
        phases: matches.get_flag("phases"),
    })
}

/// Returns the options after `profile`, as for `plan`.
fn profile_options_of(matches: &ArgMatches) -> Option<ProfileOptions>
    ensures value { (options : ProfileOptions) → AreProfiled options (rows_of (found_of matches.now))
        → result ≡ Some options }
    ensures some { IfSome result (λ options. 0 < options.workers) }
    ensures few { IfSome result (λ options. options.workers ≤ most_workers) }
{
    Some(ProfileOptions {
        workers: workers_of(matches)?,
        certificate: matches.get_flag("certificate"),
        sweep: matches.get_flag("sweep"),
    })
}

/// Returns a number as one of 32 bits.
fn widen(number: Option<u8>) -> Option<u32>
    ensures value { result ≡ number }
{
    match number {
        Some(number) => Some(u32::from(number)),
        None => None,
    }
}

/// Returns the options, if both numbers are in their ranges.
fn lawful(options: StressOptions) -> Option<StressOptions>
    ensures same { AreLawful options → result ≡ Some options }
    ensures lawful { IfSome result AreLawful }
{
    if let Some(workers) = options.workers {
        if workers == 0 || workers > MOST_WORKERS {
            return None;
        }
    }
    if options.rounds == 0 || options.rounds > MOST_ROUNDS {
        return None;
    }
    Some(options)
}

/// Returns the options after `stress`, or `None` if a number is out of its range, which clap
/// refuses itself.
fn stress_options_of(matches: &ArgMatches) -> Option<StressOptions>
    ensures value { (options : StressOptions) → AreStressed options (rows_of (found_of matches.now))
        → result ≡ Some options }
    ensures lawful { IfSome result AreLawful }
{
    let workers = widen(matches.get_one::<u8>("workers"));
    let rounds = matches.get_one::<u32>("rounds")?;
    let report = matches.get_flag("report");
    lawful(StressOptions {
        workers,
        rounds,
        report,
    })
}

/// Returns the request of the words after `check`.
fn check_of(matches: &ArgMatches) -> Request
    ensures plan { IsOfProfile false (rows_of (found_of matches.now)) → result ≡ Request.Check }
    ensures profile { IsOfProfile true (rows_of (found_of matches.now))
        → result ≡ Request.CheckProfile }
    ensures bounded { HasWorkers result }
{
    if matches.get_flag("profile") {
        Request::CheckProfile
    } else {
        Request::Check
    }
}

/// Returns the request of the subcommand of this name, with the words after it, or `None` if there
/// is no such subcommand.
fn request_of(name: &str, matches: &ArgMatches) -> Option<Request>
    ensures value { (request : Request)
        → IsRequest request name.now (rows_of (found_of matches.now)) → result ≡ Some request }
    ensures bounded { IfSome result HasWorkers }
{
    match name {
        "run" => Some(Request::Run(run_options_of(matches))),
        "check" => Some(check_of(matches)),
        "plan" => Some(Request::Plan(options_of(matches)?)),
        "stress" => Some(Request::Stress(stress_options_of(matches)?)),
        "profile" => Some(Request::Profile(profile_options_of(matches)?)),
        _ => None,
    }
}

/// Returns how to read the input of the subcommand of this name. No key of a profile is refused.
fn reading_for(name: &str, matches: &ArgMatches) -> Reading
    ensures value { (request : Request) → (reading : Reading)
        → IsRequest request name.now (rows_of (found_of matches.now))
        → IsReadFor request reading (rows_of (found_of matches.now)) → result ≡ reading }
    ensures unexplained { SaysNoExplanation (Some (name.now, rows_of (found_of matches.now)))
        → result.explain ≡ false }
{
    match name {
        "profile" => plain_reading_of(matches),
        _ => reading_of(matches),
    }
}

/// Returns the request of the subcommand that was used, or `None` if none was, which clap refuses
/// itself.
fn asked_of(matches: &ArgMatches) -> Option<Asked>
    ensures value { (asked : Asked) → IsNamed asked (subcommand_rows_of matches.now)
        → result ≡ Some asked }
    ensures bounded { IfSome result (λ asked. HasWorkers asked.request) }
    ensures unexplained { SaysNoExplanation (subcommand_rows_of matches.now)
        → IfSome result (λ asked. asked.reading.explain ≡ false) }
{
    let (name, options) = matches.subcommand()?;
    let request = request_of(name, options)?;
    Some(Asked {
        request,
        reading: reading_for(name, options),
    })
}

/// Returns the request of a command line, whose first word is the program's name, or the answer to
/// it.
pub(crate) fn parse<S: AsStr>(alloc: Global, words: &[S]) -> Result<Option<Asked>, Error>
    ensures asked { IfOk result (λ found. (asked : Asked)
        → AsksFor asked (map S.text words.now) → found ≡ Some asked) }
    ensures bounded { IfOk result (λ found. IfSome found (λ asked. HasWorkers asked.request)) }
    ensures unexplained { AsksNoExplanation (map S.text words.now)
        → IfOk result (λ found. IfSome found (λ asked. asked.reading.explain ≡ false)) }
    ensures taken { IfErr result (λ e. (asked : Asked) → AsksFor asked (map S.text words.now)
        → kind_of e ≡ ErrorKind.OutOfMemory) }
    ensures kinds { (kind : ErrorKind) → fault_of program (map S.text words.now) ≡ kind ∷ []
        → IfErr result (λ e. (kind_of e ≡ ErrorKind.OutOfMemory) ⊎ (kind_of e ≡ kind)) }
    ensures refused { (kind : ErrorKind) → fault_of program (map S.text words.now) ≡ kind ∷ []
        → OnOk result ⊥ }
{
    let command = build(alloc)?;
    let matches = command.try_get_matches_from(words)?;
    Ok(asked_of(&matches))
}
