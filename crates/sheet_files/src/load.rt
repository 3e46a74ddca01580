ghost use Rattle.std.specs.Prelude.{◌≡◌, ◌≤◌, ◌^◌, [], List, ℕ, IfOk, length, true};
ghost use Rattle.stx_host.specs.Outside.{Outside};
ghost use Rattle.stx_host.specs.declared.act.Act.{Act};
ghost use Rattle.sheet_loader.specs.Loaders.{is_over};
ghost use Rattle.sheet_model.specs.Sound.{IsSound};
ghost use Rattle.fault_report.specs.declared.outcome.HostFault.TheVariants as host_fault;
ghost use Rattle.sheet_files.specs.Held as held;
ghost use Rattle.sheet_files.specs.Loading.{LoadActs, LoadAnswers, LoadCounts, LoadsTo};
ghost use Rattle.sheet_files.specs.Opened.{documents_told};
ghost use Rattle.sheet_files.specs.Steps as steps;

use crate::reading::{Halt, Reading};
use fault_report::{HostFault, Outcome};
use sheet_loader::LoadStop;
use sheet_model::Sheet;
use std::alloc::Global;
use stx_base::{Copied, Limits, List, Memory, SheetCode, SheetFault, Text};
use stx_host::{Doc, Host, Opened};

/// A sheet, and its files as they were read, in the order of opening; one that is included twice stands there twice.
#[derive(Drop)]
pub struct Loaded {
    pub sheet: Sheet,
    pub files: List<Doc>,
}

/// The sheet of a name, or why there is none: its first fault, a failure of the host, or want of memory. All that is opened
/// is given back.
pub fn load_sheet<H: Host>(
    alloc: Global,
    host: &mut H,
    name: &Text,
    limits: Limits,
) -> Result<Loaded, Outcome>
    ensures answer { LoadAnswers (documents_told (H.outside host.old)) limits name.now result }
    ensures acts { (acts : List Act) × LoadActs (H.outside host.old) (H.outside host.new) limits name.now result acts }
    ensures counts { LoadCounts (H.outside host.old) (H.outside host.new) result }
    ensures ids { (H.outside host.new).open_ids ≡ (H.outside host.old).open_ids }
    ensures sound { limits.depth ≤ 512 → limits.sheet ≤ 2 ^ 24 → IfOk result (λ loaded. IsSound loaded.sheet) }
{
    let Ok((file, own)) = twice(alloc, name) else {
        return Err(Outcome::Memory);
    };
    match host.open(name) {
        Opened::Id(id) => load_from(host, Reading::new(alloc, limits, own), file, id),
        Opened::Absent => Err(Outcome::Sheet(SheetFault {
            file,
            code: SheetCode::NoDocument,
            offset: 0,
        })),
        Opened::Failed => Err(failure(file, 0)),
        Opened::Memory => Err(Outcome::Memory),
    }
}

fn twice(alloc: Global, name: &Text) -> Result<(Text, Text), Memory>
    ensures { IfOk result (λ names. (names.0 ≡ name.now) × (names.1 ≡ name.now)) }
{
    Ok((name.copy(alloc)?, name.copy(alloc)?))
}

/// Reads the sheet whose own file was opened.
fn load_from<H: Host>(
    host: &mut H,
    reading: Reading,
    file: Text,
    id: u32,
) -> Result<Loaded, Outcome>
    requires empty { steps.IsEmpty reading.limits file reading }
    requires open { steps.IsLastOpen (H.outside host.old) id }
    ensures { (start : Outside) → steps.OpensOwn start (H.outside host.old) file id → LoadsTo start (H.outside host.new) reading.limits file result }
{
    let mut reading = reading;
    if let Err(Memory) = reading.enter(file, id) {
        host.close(id);
        drop(reading);
        return Err(Outcome::Memory);
    }
    match reading.run(host) {
        Ok(()) => {
            reading.leave_all(host);
            finished(reading)
        }
        Err(halt) => {
            let outcome = failure_of(halt, &mut reading);
            reading.leave_all(host);
            drop(reading);
            Err(outcome)
        }
    }
}

/// What was read to its end, or to its first fault.
fn finished(reading: Reading) -> Result<Loaded, Outcome>
    requires { is_over reading.loader.progress ≡ true }
    ensures { steps.Finishes reading result }
{
    let Reading { loader, files, .. } = reading;
    match loader.finish() {
        Ok(sheet) => Ok(Loaded {
            sheet,
            files: List::from_vec(files),
        }),
        Err(LoadStop::Fault(fault)) => Err(Outcome::Sheet(fault)),
        Err(LoadStop::Memory) => Err(Outcome::Memory),
    }
}

fn failure_of(halt: Halt, reading: &mut Reading) -> Outcome
    requires { held.AreNumbered 0 reading.old.going.items (length reading.old.files.items) }
    ensures fails { steps.FailsAs halt reading.old result }
    ensures kept { steps.KeepsFiles reading.old reading.new }
{
    match halt {
        Halt::Unopened(file) => failure(file, 0),
        Halt::Unread => match reading.take_innermost() {
            Some((file, offset)) => failure(file, offset),
            None => Outcome::Memory,
        },
        Halt::Memory => Outcome::Memory,
    }
}

/// The host failed after so many bytes of a file.
fn failure(file: Text, offset: u64) -> Outcome
    ensures { result ≡ Outcome.Host file host_fault.Doc offset }
{
    Outcome::Host {
        file,
        fault: HostFault::Doc,
        offset,
    }
}
