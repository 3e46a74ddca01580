ghost use Rattle.std.specs.Prelude.{◌≡◌, IfOk, ℕ, List, map};
ghost use Rattle.stx_host.specs.Outside.{TellsMain};
ghost use Rattle.stx_host.specs.declared.act.Doc.{Doc};
ghost use Rattle.command_words.specs.declared.command.Mode.TheVariants as mode;
ghost use Rattle.run_engine.specs.Run.{IsAtStart};
ghost use Rattle.sheet_loader.specs.Values.{Reads};
ghost use Rattle.sheet_model.specs.Sound.{IsSound};
ghost use Rattle.stx_engine.specs.Answer.{param_of};
ghost use Rattle.stx_engine.specs.Doing.{AreUsual, Does, DoesCommand, DoesWords, RunsAny, asked_by};
ghost use Rattle.stx_engine.specs.Headline.{DoesAll, IsStatus, KeepsMain, KeepsTold, RefusesUnnamed, Tells};
ghost use Rattle.stx_engine.specs.Running.{Reports, Runs};
ghost use Rattle.stx_engine.specs.Words.{spelled};
ghost use Rattle.stx_engine.specs.declared.run_end.RunEnd.TheVariants as end;
ghost use Rattle.fault_report.specs.declared.outcome.Outcome.TheVariants as outcome;

use crate::asked::Asked;
use crate::plain::runnable;
use crate::run_end::{HOST_FAILED, RunEnd, end_of_run, end_of_sample};
use crate::{law, passed};
use command_words::{Command, Mode, Param as Given, WordsFault, read_words};
use fault_report::{OUT_OF_MEMORY, Outcome};
use run_engine::Engine;
use sample_maker::{law as sample_law, make_sample};
use sheet_files::{Loaded, load_sheet};
use sheet_model::Sheet;
use sheet_runs::{End, Main, Ran, law as sheet_law, run_sheet, write};
use std::alloc::Global;
use stx_base::{Limits, List, Memory};
use stx_host::{Host, Lane};
use template_machine::{Param, law as machine_law};

/// The status where memory was wanting.
const MEMORY_WANTING: u8 = 7;

/// Does all that the program does with the words after its name: it transforms the main document, or with `--sample` a
/// sample in its place, or with `--check` looks at the sheet alone. It answers the status that the program ends with: 0
/// where the document was read to its end and all was written, or the sheet is accepted; 1 where an instruction of the sheet has
/// a fault, 2 where the words are refused, 3 where the sheet is, 4 where a document has a fault, 5 where the host failed, 6 where
/// fuel is spent, 7 where memory was wanting. Messages stand on the lane `Note`; what stopped the run stands behind them in one
/// line, and so does what a run on the sample that is done read and wrote.
pub fn transform<H: Host>(alloc: Global, words: &[String], host: &mut H) -> u8
    // Where the host tells its documents, the main one among them, its log, its lanes and which ids are open: where there is an answer, output,
    // messages and status are it, and what the bytes read so far settle of it was written whenever more is read;
    ensures told { (reads : Reads) (docs : List Doc) (main : List ℕ) → Tells (H.outside host.old) docs main → KeepsTold (H.outside host.old) (H.outside host.new) reads (spelled words.now) docs main result }
    // where it tells the main one, its log and its lanes: whether that was read to its end, and with what the output begins.
    ensures main { (main : List ℕ) → TellsMain (H.outside host.old) main → KeepsMain (H.outside host.old) (H.outside host.new) (spelled words.now) main result }
    // For every host, whatever it tells: all that was done, one after the other;
    ensures does { DoesAll (H.outside host.old) (H.outside host.new) (spelled words.now) result }
    // the statuses that there are, when words are refused, and that each id is given back.
    ensures status { IsStatus (H.outside host.old) (H.outside host.new) (spelled words.now) result }
    ensures words { RefusesUnnamed (H.outside host.old) (H.outside host.new) (spelled words.now) result }
    ensures ids { (H.outside host.new).open_ids ≡ (H.outside host.old).open_ids }
{
    law::answers();
    passed::runs();
    machine_law::one_meaning();
    sheet_law::meant();
    sample_law::pieces();
    let end = run(alloc, words, host);
    match end.line(alloc) {
        Ok(line) => report(line.as_str(), end.status(), host),
        Err(Memory) => report(OUT_OF_MEMORY, MEMORY_WANTING, host),
    }
}

// Writes the last line, where there is one. Want of memory stays the status where that fails too.
fn report<H: Host>(line: &str, status: u8, host: &mut H) -> u8
    ensures { Reports (H.outside host.old) line.now status (H.outside host.new) result }
{
    match write(host, Lane::Note, line.as_bytes()) {
        Err(_) if status != MEMORY_WANTING => HOST_FAILED,
        _ => status,
    }
}

fn run<H: Host>(alloc: Global, words: &[String], host: &mut H) -> RunEnd
    ensures does { DoesWords (spelled words.now) (H.outside host.old) (H.outside host.new) result }
    ensures runs { Runs (spelled words.now) (H.outside host.old) (H.outside host.new) result }
{
    passed::runs();
    match read_words(alloc, words) {
        Ok(command) => run_command(alloc, command, host),
        Err(WordsFault::Usage) => RunEnd::Told(Outcome::Usage),
        Err(WordsFault::Memory) => RunEnd::Told(Outcome::Memory),
    }
}

// Loads the sheet, and does with it what is asked for.
fn run_command<H: Host>(alloc: Global, command: Command, host: &mut H) -> RunEnd
    requires { AreUsual command.limits }
    ensures { DoesCommand command (H.outside host.old) (H.outside host.new) result }
{
    match load_sheet(alloc, host, &command.sheet, Limits::standard()) {
        Ok(loaded) => run_loaded(alloc, command, sheet_of(loaded), host),
        Err(outcome) => {
            drop(command);
            RunEnd::Told(outcome)
        }
    }
}

// Does what is asked for with a sheet that was accepted.
fn run_loaded<H: Host>(alloc: Global, command: Command, loaded: Sheet, host: &mut H) -> RunEnd
    requires sound { IsSound loaded }
    requires limits { AreUsual command.limits }
    ensures { Does command loaded (H.outside host.old) (H.outside host.new) result }
{
    let Command {
        sheet: name,
        params,
        limits,
        mode,
    } = command;
    let asked = Asked {
        name,
        params,
        limits,
    };
    match mode {
        Mode::Check => check(asked, loaded),
        Mode::Run => run_main(alloc, asked, loaded, host),
        Mode::Sample(records) => run_sample(alloc, asked, loaded, records, host),
    }
}

fn sheet_of(loaded: Loaded) -> Sheet
    ensures { result ≡ loaded.sheet }
{
    let Loaded { sheet, .. } = loaded;
    sheet
}

// The sheet was accepted, and that is all that is asked.
fn check(asked: Asked, sheet: Sheet) -> RunEnd
    ensures { result ≡ end.Told outcome.Done }
{
    drop(asked);
    drop(sheet);
    RunEnd::Told(Outcome::Done)
}

// Transforms the main document of the host.
fn run_main<H: Host>(alloc: Global, asked: Asked, sheet: Sheet, host: &mut H) -> RunEnd
    requires sound { IsSound sheet }
    requires limits { AreUsual asked.limits }
    ensures { Does (asked_by asked mode.Run) sheet (H.outside host.old) (H.outside host.new) result }
{
    let sheet = runnable(alloc, sheet);
    end_of_run(run_any(alloc, asked, sheet, Main::Host, host))
}

// Transforms the sample of so many records.
fn run_sample<H: Host>(
    alloc: Global,
    asked: Asked,
    sheet: Sheet,
    records: u64,
    host: &mut H,
) -> RunEnd
    requires sound { IsSound sheet }
    requires limits { AreUsual asked.limits }
    ensures { Does (asked_by asked (mode.Sample records)) sheet (H.outside host.old) (H.outside host.new) result }
{
    let sheet = runnable(alloc, sheet);
    let main = Main::Sample(make_sample(records));
    end_of_sample(records, run_any(alloc, asked, sheet, main, host))
}

// Runs any sheet.
fn run_any<H: Host>(alloc: Global, asked: Asked, sheet: Sheet, main: Main, host: &mut H) -> Ran
    requires sound { IsSound sheet }
    requires limits { AreUsual asked.limits }
    ensures { RunsAny (map param_of asked.params) asked.limits sheet main (H.outside host.old) (H.outside host.new) result }
{
    match engine_of(alloc, asked, sheet) {
        Ok(engine) => run_sheet(alloc, engine, main, host),
        Err(Memory) => Ran {
            end: End::Told(Outcome::Memory),
            input: 0,
            output: 0,
        },
    }
}

fn engine_of(alloc: Global, asked: Asked, sheet: Sheet) -> Result<Engine, Memory>
    requires sound { IsSound sheet }
    requires limits { AreUsual asked.limits }
    ensures { IfOk result (IsAtStart sheet (map param_of asked.params) asked.limits) }
{
    let Asked {
        name,
        params,
        limits,
    } = asked;
    drop(name);
    match params_of(alloc, params) {
        Ok(params) => Engine::new(alloc, sheet, params, limits),
        Err(Memory) => {
            drop(sheet);
            Err(Memory)
        }
    }
}

// The parameters, as a sheet takes them.
fn params_of(alloc: Global, given: List<Given>) -> Result<List<Param>, Memory>
    ensures { IfOk result (λ params. params ≡ map param_of given) }
{
    let mut params = Vec::new(alloc);
    for param in given.into_vec() {
        params.push(param_from(param))?;
    }
    Ok(List::from_vec(params))
}

fn param_from(given: Given) -> Param
    ensures { result ≡ param_of given }
{
    let Given { name, value } = given;
    Param { name, value }
}
