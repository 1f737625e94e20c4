//! Options for reading the input of a command line.
ghost use Rattle.std.specs.Prelude.{◌≡◌, false, IfOk, IsTrue};
ghost use Rattle.clap.specs.Words.{app_of, found_of, rows_of};
ghost use Rattle.clap.specs.declared.builder.command.Command.TheViews.{out-Command};
ghost use Rattle.mh_command.specs.CommandLine.{with_explain as app_with_explain, with_reading as app_with_reading, IsRead, IsReadPlainly, IsUnexplained};
ghost use Rattle.mh_command.specs.declared.options.Reading.{Reading};

use crate::flags::{flag, with_option};
use clap::{ArgMatches, Command};
use std::alloc::{AllocError, Global};

/// How to read the input of a subcommand.
#[derive(Clone, Copy, Debug, PartialEq, Eq)]
pub struct Reading {
    /// Whether to explain its fault, and to report unknown keys, which are not looked for in a
    /// profile.
    pub explain: bool,
    /// Whether to refuse it for an unknown key.
    pub strict: bool,
}

impl Reading {
    /// Returns whether neither is asked for, so that the input need not be kept.
    pub(crate) fn is_plain(self) -> bool
        ensures explain { IsTrue result → self.explain ≡ false }
        ensures strict { IsTrue result → self.strict ≡ false }
    {
        !self.explain && !self.strict
    }
}

/// Adds the option to explain, with its help.
pub(crate) fn with_explain<'a>(
    alloc: Global,
    command: Command<'a>,
    help: &'a str,
) -> Result<Command<'a>, AllocError>
    ensures app { IfOk result (λ c. app_of c ≡ app_with_explain (app_of command.entry)) }
    ensures local { IfOk result (λ c. (out-Command c).has_globals
        ≡ (out-Command command.entry).has_globals) }
{
    with_option(command, flag(alloc, "explain", help))
}

/// Adds both options for reading.
pub(crate) fn with_reading<'a>(
    alloc: Global,
    command: Command<'a>,
) -> Result<Command<'a>, AllocError>
    ensures app { IfOk result (λ c. app_of c ≡ app_with_reading (app_of command.entry)) }
    ensures local { IfOk result (λ c. (out-Command c).has_globals
        ≡ (out-Command command.entry).has_globals) }
{
    let help = "Explain errors (where and why), and report unknown keys";
    let strict = flag(alloc, "strict", "Reject input that contains unknown keys");
    let command = with_explain(alloc, command, help)?;
    with_option(command, strict)
}

/// Returns the options for reading after any subcommand but `profile`.
pub(crate) fn reading_of(matches: &ArgMatches) -> Reading
    ensures value { (reading : Reading) → IsRead reading (rows_of (found_of matches.now))
        → result ≡ reading }
    ensures unexplained { IsUnexplained (rows_of (found_of matches.now)) → result.explain ≡ false }
{
    Reading {
        explain: matches.get_flag("explain"),
        strict: matches.get_flag("strict"),
    }
}

/// Returns the options for reading after `profile`.
pub(crate) fn plain_reading_of(matches: &ArgMatches) -> Reading
    ensures value { (reading : Reading) → IsReadPlainly reading (rows_of (found_of matches.now))
        → result ≡ reading }
    ensures unexplained { IsUnexplained (rows_of (found_of matches.now)) → result.explain ≡ false }
{
    Reading {
        explain: matches.get_flag("explain"),
        strict: false,
    }
}
