ghost use Rattle.std.specs.Prelude.{◌≡◌, IfOk, encode_utf8_all, string_bytes};
ghost use Rattle.std.specs.Str.{chars};
ghost use Rattle.fault_report.specs.Line.{fault_line as fault_line_of, host_fault_name, line_of, run_code_name, sheet_code_name, xml_kind_name};

use crate::outcome::{HostFault, Outcome};
use std::alloc::Global;
use stx_base::{Memory, RunCode, SheetCode, Text, XmlKind};

/// What the program says of words that it refuses.
const USAGE: &str =
    "stx: usage: stx SHEET [NAME=VALUE]... [--fuel N] [--lexeme N] [--instances N] [--check] [--sample N]\n";

/// What the program says where memory was wanting, for want of memory to make that line too.
pub const OUT_OF_MEMORY: &str = "stx: out of memory\n";

/// What is said of an outcome: a line with its line feed; nothing of a run that is done.
pub fn line(alloc: Global, outcome: &Outcome) -> Result<Text, Memory>
    ensures chars { IfOk result (λ line. line ≡ chars (line_of outcome.now)) }
    ensures bytes { IfOk result (λ line. encode_utf8_all line ≡ line_of outcome.now) }
{
    let line = line_bytes(alloc, outcome)?;
    Ok(Text::from_string(line))
}

fn line_bytes(alloc: Global, outcome: &Outcome) -> Result<String, Memory>
    ensures { IfOk result (λ line. string_bytes line ≡ line_of outcome.now) }
{
    match outcome {
        Outcome::Done => Ok(String::new(alloc)),
        Outcome::Run { file, code, offset } => {
            fault_line(alloc, file.as_str(), run_code(*code), *offset)
        }
        Outcome::Usage => copied(alloc, USAGE),
        Outcome::Sheet(fault) => {
            fault_line(
                alloc,
                fault.file.as_str(),
                sheet_code(fault.code),
                fault.offset,
            )
        }
        Outcome::Xml { file, fault } => {
            fault_line(alloc, file.as_str(), xml_kind(fault.kind), fault.offset)
        }
        Outcome::Host {
            file,
            fault,
            offset,
        } => fault_line(alloc, file.as_str(), host_fault(*fault), *offset),
        Outcome::Fuel { file, offset } => fault_line(alloc, file.as_str(), "Fuel", *offset),
        Outcome::Memory => copied(alloc, OUT_OF_MEMORY),
    }
}

fn copied(alloc: Global, text: &str) -> Result<String, Memory>
    ensures { IfOk result (λ line. string_bytes line ≡ text.now) }
{
    let line = String::from_str(alloc, text)?;
    Ok(line)
}

// `stx: FILE: CODE at OFFSET` and a line feed.
fn fault_line(alloc: Global, file: &str, code: &str, offset: u64) -> Result<String, Memory>
    ensures { IfOk result (λ line. string_bytes line ≡ fault_line_of file.now code.now offset) }
{
    let line = format!(in alloc; "stx: {file}: {code} at {offset}\n")?;
    Ok(line)
}

fn host_fault(fault: HostFault) -> &'static str
    ensures { result.now ≡ host_fault_name fault }
{
    match fault {
        HostFault::Doc => "Doc",
        HostFault::Read => "Read",
        HostFault::Write => "Write",
    }
}

fn run_code(code: RunCode) -> &'static str
    ensures { result.now ≡ run_code_name code }
{
    match code {
        RunCode::Overflow => "Overflow",
        RunCode::ZeroDivisor => "ZeroDivisor",
        RunCode::Fraction => "Fraction",
        RunCode::NotWhole => "NotWhole",
        RunCode::NotOne => "NotOne",
        RunCode::NotNode => "NotNode",
        RunCode::SequenceTooLong => "SequenceTooLong",
        RunCode::TextTooLong => "TextTooLong",
        RunCode::ChildrenTwice => "ChildrenTwice",
        RunCode::BufferBusy => "BufferBusy",
        RunCode::TooManySources => "TooManySources",
        RunCode::NoDocument => "NoDocument",
        RunCode::Instances => "Instances",
        RunCode::BadName => "BadName",
        RunCode::BadChar => "BadChar",
        RunCode::BadComment => "BadComment",
        RunCode::BadPi => "BadPi",
        RunCode::LateAttribute => "LateAttribute",
        RunCode::UnmatchedEnd => "UnmatchedEnd",
        RunCode::WrongEnd => "WrongEnd",
        RunCode::UnclosedResult => "UnclosedResult",
        RunCode::ResultDepth => "ResultDepth",
        RunCode::BufferFull => "BufferFull",
    }
}

fn sheet_code(code: SheetCode) -> &'static str
    ensures { result.now ≡ sheet_code_name code }
{
    match code {
        SheetCode::SheetTooLarge => "SheetTooLarge",
        SheetCode::BadXml => "BadXml",
        SheetCode::NotStx => "NotStx",
        SheetCode::UnknownElement => "UnknownElement",
        SheetCode::Misplaced => "Misplaced",
        SheetCode::UnknownAttribute => "UnknownAttribute",
        SheetCode::MissingAttribute => "MissingAttribute",
        SheetCode::Version => "Version",
        SheetCode::BadValue => "BadValue",
        SheetCode::Fraction => "Fraction",
        SheetCode::BadPath => "BadPath",
        SheetCode::DuplicateName => "DuplicateName",
        SheetCode::IncludeLoop => "IncludeLoop",
        SheetCode::NoDocument => "NoDocument",
        SheetCode::NoGroup => "NoGroup",
        SheetCode::NoProcedure => "NoProcedure",
        SheetCode::NoBuffer => "NoBuffer",
        SheetCode::NoVariable => "NoVariable",
    }
}

fn xml_kind(kind: XmlKind) -> &'static str
    ensures { result.now ≡ xml_kind_name kind }
{
    match kind {
        XmlKind::LexemeTooLong => "LexemeTooLong",
        XmlKind::BadUtf8 => "BadUtf8",
        XmlKind::BadChar => "BadChar",
        XmlKind::InternalSubset => "InternalSubset",
        XmlKind::BadMarkup => "BadMarkup",
        XmlKind::BadDeclaration => "BadDeclaration",
        XmlKind::BadVersion => "BadVersion",
        XmlKind::Encoding => "Encoding",
        XmlKind::BadComment => "BadComment",
        XmlKind::BadPi => "BadPi",
        XmlKind::CdataEnd => "CdataEnd",
        XmlKind::BadTag => "BadTag",
        XmlKind::BadReference => "BadReference",
        XmlKind::UnknownEntity => "UnknownEntity",
        XmlKind::Misplaced => "Misplaced",
        XmlKind::BadName => "BadName",
        XmlKind::BadBinding => "BadBinding",
        XmlKind::UndeclaredPrefix => "UndeclaredPrefix",
        XmlKind::DuplicateAttribute => "DuplicateAttribute",
        XmlKind::Mismatch => "Mismatch",
        XmlKind::TooDeep => "TooDeep",
        XmlKind::TextTooLong => "TextTooLong",
        XmlKind::Truncated => "Truncated",
        XmlKind::InputTooLong => "InputTooLong",
    }
}
