ghost use Rattle.std.specs.Prelude.{◌≡◌, IfOk, false, map, string_bytes};
ghost use Rattle.clap.specs.Words.{app_of, rule_of};
ghost use Rattle.track_input.specs.Commands.{given_rule, large_rule, decimals_rule, only_rule, pair_app, with_options, track_app, convert_app, try_app, log_app, verify_app, replay_app, check_app, IsFound};

use clap::error::ErrorKind;
use clap::{Arg, ArgAction, ArgMatches, Command};
use grid_base::NoMemory;
use std::alloc::{AllocError, Global};

// A word that has to be given.
fn required_word<'a>(alloc: Global, id: &'a str) -> Arg<'a>
    ensures rule { rule_of result ≡ given_rule id.entry.now }
    ensures local { result.global ≡ false }
{
    Arg::new(alloc, id).required(true).action(ArgAction::Set)
}

// `--large`.
fn large_flag<'a>(alloc: Global) -> Arg<'a>
    ensures rule { rule_of result ≡ large_rule }
    ensures local { result.global ≡ false }
{
    Arg::new(alloc, "large")
        .long("large")
        .action(ArgAction::SetTrue)
}

// `--decimals N`.
fn decimals<'a>(alloc: Global) -> Arg<'a>
    ensures rule { rule_of result ≡ decimals_rule }
    ensures local { result.global ≡ false }
{
    Arg::new(alloc, "decimals")
        .long("decimals")
        .action(ArgAction::Set)
}

// `--only K`.
fn only<'a>(alloc: Global) -> Arg<'a>
    ensures rule { rule_of result ≡ only_rule }
    ensures local { result.global ≡ false }
{
    Arg::new(alloc, "only").long("only").action(ArgAction::Set)
}

// Takes two words after the first.
fn pair_command<'a>(
    alloc: Global,
    name: &'a str,
    first: &'a str,
    second: &'a str,
) -> Result<Command<'a>, AllocError>
    ensures { let app = pair_app name.entry.now first.entry.now second.entry.now in
        IfOk result (λ command. app_of command ≡ app) }
{
    Command::new(alloc, name)
        .disable_help_flag(true)
        .arg(required_word(alloc, first))?
        .arg(required_word(alloc, second))
}

// Takes `--large` and `--decimals N` too.
fn with_options<'a>(alloc: Global, command: Command<'a>) -> Result<Command<'a>, AllocError>
    ensures { IfOk result (λ whole. app_of whole ≡ with_options (app_of command.entry)) }
{
    command.arg(large_flag(alloc))?.arg(decimals(alloc))
}

// Takes the words of `track`, the first of them included.
pub(crate) fn track_command<'a>(alloc: Global) -> Result<Command<'a>, AllocError>
    ensures { IfOk result (λ command. app_of command ≡ track_app) }
{
    let files = pair_command(alloc, "track", "mesh", "steps")?.arg(required_word(alloc, "prefix"))?;
    with_options(alloc, files)
}

// Takes the words of `convert`, the first of them included.
pub(crate) fn convert_command<'a>(alloc: Global) -> Result<Command<'a>, AllocError>
    ensures { IfOk result (λ command. app_of command ≡ convert_app) }
{
    with_options(alloc, pair_command(alloc, "convert", "from", "to")?)
}

// Takes the words of `try`, the first of them included.
pub(crate) fn try_command<'a>(alloc: Global) -> Result<Command<'a>, AllocError>
    ensures { IfOk result (λ command. app_of command ≡ try_app) }
{
    pair_command(alloc, "try", "cubes", "key")
}

// Takes a mesh and a log after the name of a command, the name included.
pub(crate) fn log_command<'a>(alloc: Global, name: &'a str) -> Result<Command<'a>, AllocError>
    ensures { IfOk result (λ command. app_of command ≡ log_app name.entry.now) }
{
    with_options(alloc, pair_command(alloc, name, "mesh", "log")?)
}

// Takes the words of `verify`, the first of them included.
pub(crate) fn verify_command<'a>(alloc: Global) -> Result<Command<'a>, AllocError>
    ensures { IfOk result (λ command. app_of command ≡ verify_app) }
{
    let files = pair_command(alloc, "verify", "mesh", "log")?.arg(required_word(alloc, "proof"))?;
    with_options(alloc, files)
}

// Takes the words of `replay`, the first of them included.
pub(crate) fn replay_command<'a>(alloc: Global) -> Result<Command<'a>, AllocError>
    ensures { IfOk result (λ command. app_of command ≡ replay_app) }
{
    let files = pair_command(alloc, "replay", "mesh", "log")?.arg(required_word(alloc, "prefix"))?;
    with_options(alloc, files)?.arg(only(alloc))
}

// Takes the words of `check`, the first of them included.
pub(crate) fn check_command<'a>(alloc: Global) -> Result<Command<'a>, AllocError>
    ensures { IfOk result (λ command. app_of command ≡ check_app) }
{
    let file = Command::new(alloc, "check")
        .disable_help_flag(true)
        .arg(required_word(alloc, "mesh"))?;
    with_options(alloc, file)
}

// What a command finds of the words; None where it does not take them.
pub(crate) fn found_in<'a>(
    command: Command<'a>,
    words: &'a [String],
) -> Result<Option<ArgMatches<'a>>, NoMemory>
    ensures { let texts = map (λ word. string_bytes word) words.entry.now in
        IfOk result (IsFound (app_of command.entry) texts) }
{
    match command.try_get_matches_from(words) {
        Ok(found) => Ok(Some(found)),
        Err(error) if error.kind() == ErrorKind::OutOfMemory => Err(NoMemory),
        Err(_) => Ok(None),
    }
}
