//! What clap finds for the command line.
ghost use Rattle.std.specs.Prelude.{◌≡◌, ◌↔◌, ◌≢◌, IfOk, false, map, string_bytes};
ghost use Rattle.clap.specs.Simple.{app_of};
ghost use Rattle.clap.specs.Values.{kind_of};
ghost use Rattle.clap.specs.Walk.{rule_of};
ghost use Rattle.command_words.specs.Finding.{Finds, check_rule, command_line, operands_rule, option_rule};

use crate::fault::WordsFault;
use clap::error::ErrorKind;
use clap::{Arg, ArgAction, ArgMatches, Command, Error};
use std::alloc::{AllocError, Global};

/// What is found for `--check`: clap keeps a word for each use.
const CHECKED: &str = "yes";

/// Reads the words by the arguments of the command line. Each keeps all its uses, so that what is given twice is seen.
pub(crate) fn read_uses(alloc: Global, words: &[String]) -> Result<ArgMatches<'_>, WordsFault>
    ensures { Finds (map (λ word. string_bytes word) words.now) result }
{
    let command = match arguments(alloc) {
        Ok(command) => command,
        Err(_) => return Err(WordsFault::Memory),
    };
    match command.try_get_matches_from(words) {
        Ok(matches) => Ok(matches),
        Err(error) => Err(fault(&error)),
    }
}

fn fault(error: &Error) -> WordsFault
    ensures { (result ≡ WordsFault.Usage) ↔ (kind_of error.now ≢ ErrorKind.OutOfMemory) }
{
    if error.kind() == ErrorKind::OutOfMemory {
        WordsFault::Memory
    } else {
        WordsFault::Usage
    }
}

// The command line, without the flags for help and version.
fn arguments<'a>(alloc: Global) -> Result<Command<'a>, AllocError>
    ensures { IfOk result (λ command. app_of command ≡ command_line) }
{
    let fuel = option(alloc, "fuel");
    let lexeme = option(alloc, "lexeme");
    let instances = option(alloc, "instances");
    let sample = option(alloc, "sample");
    let check = check(alloc);
    let operands = operands(alloc);
    let command = Command::new(alloc, "stx")
        .no_binary_name(true)
        .disable_help_flag(true)
        .arg(fuel)?
        .arg(lexeme)?
        .arg(instances)?
        .arg(sample)?
        .arg(check)?
        .arg(operands)?;
    Ok(command)
}

// An option that takes a value.
fn option<'a>(alloc: Global, name: &'a str) -> Arg<'a>
    ensures rule { rule_of result ≡ option_rule name.entry.now }
    ensures local { result.global ≡ false }
{
    Arg::new(alloc, name).long(name).action(ArgAction::Append)
}

// `--check`, which takes none.
fn check<'a>(alloc: Global) -> Arg<'a>
    ensures rule { rule_of result ≡ check_rule }
    ensures local { result.global ≡ false }
{
    Arg::new(alloc, "check")
        .long("check")
        .action(ArgAction::Append)
        .num_args(0)
        .default_missing_value(CHECKED)
}

// The words that are no options.
fn operands<'a>(alloc: Global) -> Arg<'a>
    ensures rule { rule_of result ≡ operands_rule }
    ensures local { result.global ≡ false }
{
    Arg::new(alloc, "operands").action(ArgAction::Append)
}
