// The refusals of a script.
ghost use Rattle.std.specs.Prelude.{◌≡◌, ◌++◌, IfOk, OnOk};
ghost use Rattle.cert_model.specs.AnswerText.{name_text};
ghost use Rattle.script_fault.specs.declared.fault.FaultKind.TheVariants.{TooMany};
ghost use Rattle.check_run.specs.ScriptFaults.{fault_text, kind_text};

use crate::name::append_name;
use script_fault::{FaultKind, Limit, Name, Place, ScriptFault};
use std::alloc::{AllocError, Global};

/// The script is refused for this fault.
pub fn script_fault(alloc: Global, fault: &ScriptFault) -> Result<Vec<u8>, AllocError>
    ensures { IfOk result (λ text. text.items ≡ fault_text fault.now) }
{
    let Place { line, column } = fault.at;
    let place = format!(in alloc; " {line}:{column}\n")?;
    let mut text = Vec::from_slice(alloc, b"script fault ")?;
    append_kind(&mut text, &fault.kind)?;
    text.extend_from_slice(place.as_bytes())?;
    Ok(text)
}

fn append_kind(text: &mut Vec<u8>, kind: &FaultKind) -> Result<(), AllocError>
    ensures { OnOk result (text.new.items ≡ text.old.items ++ kind_text kind.now) }
{
    match kind {
        FaultKind::BadByte => text.extend_from_slice(b"1 BadByte"),
        FaultKind::OpenToken => text.extend_from_slice(b"2 OpenToken"),
        FaultKind::Unbalanced => text.extend_from_slice(b"3 Unbalanced"),
        FaultKind::NumberTooWide => text.extend_from_slice(b"4 NumberTooWide"),
        FaultKind::BadCommand => text.extend_from_slice(b"5 BadCommand"),
        FaultKind::UnknownSymbol(name) => append_named(text, b"6 UnknownSymbol ", name),
        FaultKind::SortMismatch => text.extend_from_slice(b"7 SortMismatch"),
        FaultKind::Redeclared(name) => append_named(text, b"8 Redeclared ", name),
        FaultKind::DivisorNotConstant => text.extend_from_slice(b"9 DivisorNotConstant"),
        FaultKind::ZeroDivisor => text.extend_from_slice(b"10 ZeroDivisor"),
        FaultKind::NoBound(name) => append_named(text, b"11 NoBound ", name),
        FaultKind::BoundTooWide(name) => append_named(text, b"12 BoundTooWide ", name),
        FaultKind::TooMany(what) => append_limit(text, *what),
        FaultKind::NoCheck => text.extend_from_slice(b"14 NoCheck"),
        FaultKind::WrongLogic => text.extend_from_slice(b"15 WrongLogic"),
        FaultKind::LeftOut => text.extend_from_slice(b"16 LeftOut"),
    }
}

fn append_named(text: &mut Vec<u8>, words: &[u8], name: &Name) -> Result<(), AllocError>
    ensures { OnOk result (text.new.items ≡ text.old.items ++ (words.now ++ name_text name.now)) }
{
    text.extend_from_slice(words)?;
    append_name(text, name.as_slice())
}

fn append_limit(text: &mut Vec<u8>, what: Limit) -> Result<(), AllocError>
    ensures { OnOk result (text.new.items ≡ text.old.items ++ kind_text (TooMany what)) }
{
    text.extend_from_slice(match what {
        Limit::Bytes => b"13 TooMany Bytes".as_slice(),
        Limit::Depth => b"13 TooMany Depth".as_slice(),
        Limit::Axes => b"13 TooMany Axes".as_slice(),
        Limit::Size => b"13 TooMany Size".as_slice(),
        Limit::Nodes => b"13 TooMany Nodes".as_slice(),
        Limit::Atoms => b"13 TooMany Atoms".as_slice(),
        Limit::Forms => b"13 TooMany Forms".as_slice(),
        Limit::Levels => b"13 TooMany Levels".as_slice(),
        Limit::Checks => b"13 TooMany Checks".as_slice(),
    })
}
