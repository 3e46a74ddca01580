ghost use Rattle.std.specs.Prelude.{◌≡◌, ◌≤◌, IfSome, List as Items, length, map, string_bytes};
ghost use Rattle.clap.specs.Matches.{found_of};
ghost use Rattle.clap.specs.Walk.{rows_of};
ghost use Rattle.command_words.specs.Finding.{Tells, words_in};
ghost use Rattle.command_words.specs.Said.{Said};
ghost use Rattle.command_words.specs.Words.{Reads, command_of, limits_in, mode_in, operands_of, with_limits};

use crate::fault::WordsFault;
use crate::numeral::{Range, number};
use crate::param::{Param, read_params};
use crate::uses::read_uses;
use clap::ArgMatches;
use std::alloc::Global;
use stx_base::{Limits, List, Text};

const FUEL: Range = Range {
    least: 1,
    most: 1_000_000_000_000,
};

const LEXEME: Range = Range {
    least: 16,
    most: 67_108_864,
};

const INSTANCES: Range = Range {
    least: 1,
    most: 65_536,
};

const SAMPLE: Range = Range {
    least: 1,
    most: 1_000_000,
};

/// What is to be done with the sheet.
#[derive(Clone, Copy, Debug, PartialEq, Eq)]
pub enum Mode {
    /// Transform the main document.
    Run,
    /// Load the sheet alone.
    Check,
    /// Transform the sample of so many records.
    Sample(u64),
}

/// What the words ask for.
#[derive(Debug, Drop)]
pub struct Command {
    pub sheet: Text,
    pub params: List<Param>,
    pub limits: Limits,
    pub mode: Mode,
}

/// Reads the words after the program's name:
/// `SHEET [NAME=VALUE]... [--fuel N] [--lexeme N] [--instances N] [--check] [--sample N]`. Options stand anywhere, each at
/// most once, as `--fuel 9` or `--fuel=9`, and `--` ends them. Of the words that are no options the first is the sheet, and
/// each other one gives a parameter whose name has no colon, no two of one name. N is one to nineteen digits in the option's
/// range. `--check` and `--sample` exclude each other.
pub fn read_words(alloc: Global, words: &[String]) -> Result<Command, WordsFault>
    ensures { Reads (command_of (map (λ word. string_bytes word) words.now)) result }
{
    let matches = read_uses(alloc, words)?;
    let limits = read_limits(&matches)?;
    let mode = read_mode(&matches)?;
    let (sheet, params) = read_operands(alloc, matches.get_strs("operands"))?;
    Ok(Command {
        sheet,
        params,
        limits,
        mode,
    })
}

fn read_limits(matches: &ArgMatches<'_>) -> Result<Limits, WordsFault>
    ensures { (said : Items Said) → Tells (rows_of (found_of matches.now)) said → Reads (limits_in said) result }
{
    let fuel = number(matches.get_strs("fuel"), FUEL)?;
    let lexeme = number(matches.get_strs("lexeme"), LEXEME)?;
    let instances = number(matches.get_strs("instances"), INSTANCES)?;
    Ok(limits_with(fuel, lexeme, instances))
}

// The standard limits, but for those that are given.
fn limits_with(fuel: Option<u64>, lexeme: Option<u64>, instances: Option<u64>) -> Limits
    requires { IfSome instances (λ number. number ≤ 65536) }
    ensures { result ≡ with_limits fuel lexeme instances }
{
    let standard = Limits::standard();
    let instances = match instances {
        Some(number) => number as u32,
        None => standard.instances,
    };
    Limits {
        fuel: fuel.unwrap_or(standard.fuel),
        lexeme: lexeme.unwrap_or(standard.lexeme),
        instances,
        ..standard
    }
}

fn read_mode(matches: &ArgMatches<'_>) -> Result<Mode, WordsFault>
    ensures { (said : Items Said) → Tells (rows_of (found_of matches.now)) said → Reads (mode_in said) result }
{
    let checks = count(matches.get_strs("check"));
    let sample = number(matches.get_strs("sample"), SAMPLE)?;
    match (checks, sample) {
        (0, None) => Ok(Mode::Run),
        (0, Some(records)) => Ok(Mode::Sample(records)),
        (1, None) => Ok(Mode::Check),
        _ => Err(WordsFault::Usage),
    }
}

// How many uses there are.
fn count(uses: Option<&[&str]>) -> usize
    ensures { result ≡ length (words_in uses.entry) }
{
    match uses {
        Some(words) => words.len(),
        None => 0,
    }
}

// The sheet and the parameters, by the words that are no options.
fn read_operands(alloc: Global, words: Option<&[&str]>) -> Result<(Text, List<Param>), WordsFault>
    ensures { Reads (operands_of (words_in words.entry)) result }
{
    let Some([sheet, others @ ..]) = words else {
        return Err(WordsFault::Usage);
    };
    let params = read_params(alloc, others)?;
    let sheet = Text::of(alloc, sheet)?;
    Ok((sheet, params))
}
