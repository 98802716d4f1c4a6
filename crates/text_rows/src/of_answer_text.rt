// The texts of each answer, as the formats page gives them.
ghost use Rattle.std.specs.Prelude.{◌≡◌, All, IfOk};
ghost use Rattle.dyadic.specs.Views.{fraction_of_frac};
ghost use Rattle.poly_graph.specs.ProblemViews.{declared_of};
ghost use Rattle.text_rows.specs.TriedAnswerText.{nought, one, from_nought_to_one};

use cert_check::CertFault;
use check_run::*;
use cover_line::{NarrowingKind, Word};
use dyadic::{Dy, Frac, read_dy};
use ival::{Domain, Range, Space, Truths};
use poly_graph::{Axis, Declared, FormNode, FormTable, Graph, NoNode, Problem};
use script_fault::{FaultKind, Limit, Name, Place, ScriptFault};
use std::alloc::{AllocError, Global};

// ---- problems without atoms, whose Real axes lie between 0 and 1

fn unit_interval() -> Declared
    ensures { declared_of result ≡ from_nought_to_one }
{
    Declared::Real(Frac::new(0, 1), Frac::new(1, 1))
}

fn axes(alloc: Global, names: &[&str]) -> Result<Vec<Axis>, AllocError>
    ensures { IfOk result (λ axes.
        All (λ a. declared_of a.declared ≡ from_nought_to_one) axes.items) }
{
    let mut axes = Vec::new(alloc);
    for name in names {
        axes.push(Axis {
            name: Vec::from_slice(alloc, name.as_bytes())?,
            declared: unit_interval(),
        })?;
    }
    Ok(axes)
}

fn problem_of(alloc: Global, axes: Vec<Axis>) -> Result<Problem, NoNode>
    requires { All (λ a. declared_of a.declared ≡ from_nought_to_one) axes.items }
{
    let mut forms = FormTable::new(alloc);
    let root = forms.intern(FormNode::True)?;
    Ok(Problem::new(
        axes,
        Graph::new(alloc),
        Vec::new(alloc),
        forms.into_graph(),
        root,
    ))
}

fn problem(alloc: Global, names: &[&str]) -> Option<Problem> {
    let axes = axes(alloc, names).ok()?;
    problem_of(alloc, axes).ok()
}

// ---- spaces

// What is left to an axis.
enum Left {
    False,
    True,
    Real(&'static str, &'static str),
}

fn number(text: &str) -> Option<Dy> {
    read_dy(text.as_bytes()).ok()
}

fn domain(left: &Left) -> Option<Domain> {
    match left {
        Left::False => Some(Domain::Bool(Truths::False)),
        Left::True => Some(Domain::Bool(Truths::True)),
        Left::Real(low, high) => { Range::between(number(low)?, number(high)?).map(Domain::Real) }
    }
}

fn add_all(axes: &mut Vec<Domain>, lefts: &[Left]) -> Option<()> {
    for left in lefts {
        axes.push(domain(left)?).ok()?;
    }
    Some(())
}

fn space(alloc: Global, lefts: &[Left]) -> Option<Space> {
    let mut axes = Vec::new(alloc);
    add_all(&mut axes, lefts)?;
    Some(Space { axes })
}

// ---- answers

// An answer, with the names of axes and what is left to them.
enum Told {
    DeltaSat(&'static [&'static str], &'static [Left], u32),
    Budget(u64),
    Width(&'static [&'static str], &'static [Left], u32),
    Open(u64),
    Refused(CertFault),
    // A limit that is passed at this line and column.
    TooMany(Limit, u32, u32),
    // The name that is not known in the second line.
    Unknown(&'static str),
}

// The text of a point at so many bits, or of a box with the number of an atom.
fn text_of_space(
    alloc: Global,
    problem: &Problem,
    space: &Space,
    number: u32,
    is_point: bool,
) -> Result<Vec<u8>, AllocError> {
    if is_point {
        delta_sat(alloc, problem, number, space)
    } else {
        width(alloc, problem, space, number)
    }
}

// The same by the names of the axes and what is left to them.
fn text_by_names(
    alloc: Global,
    names: &[&str],
    lefts: &[Left],
    number: u32,
    is_point: bool,
) -> Option<Vec<u8>> {
    match (problem(alloc, names), space(alloc, lefts)) {
        (Some(problem), Some(space)) => {
            text_of_space(alloc, &problem, &space, number, is_point).ok()
        }
        _ => None,
    }
}

// The refusal of a script at this place.
fn text_of_fault(
    alloc: Global,
    kind: FaultKind,
    line: u32,
    column: u32,
) -> Result<Vec<u8>, AllocError> {
    let at = Place { line, column };
    script_fault(alloc, &ScriptFault { at, kind })
}

// The refusal of this name.
fn text_of_name(alloc: Global, name: &str) -> Result<Vec<u8>, AllocError> {
    let name = Name::from_slice(alloc, name.as_bytes())?;
    text_of_fault(alloc, FaultKind::UnknownSymbol(name), 2, 3)
}

fn text_of(alloc: Global, told: &Told) -> Option<Vec<u8>> {
    match told {
        Told::DeltaSat(names, lefts, bits) => text_by_names(alloc, names, lefts, *bits, true),
        Told::Budget(branches) => budget(alloc, *branches).ok(),
        Told::Width(names, lefts, atom) => text_by_names(alloc, names, lefts, *atom, false),
        Told::Open(boxes) => left_open(alloc, *boxes).ok(),
        Told::Refused(fault) => cert_fault(alloc, *fault).ok(),
        Told::TooMany(limit, line, column) => {
            text_of_fault(alloc, FaultKind::TooMany(*limit), *line, *column).ok()
        }
        Told::Unknown(name) => text_of_name(alloc, name).ok(),
    }
}

// Whether the answer has this text.
fn is_told(alloc: Global, told: &Told, text: &str) -> bool {
    match text_of(alloc, told) {
        Some(bytes) => bytes.as_slice() == text.as_bytes(),
        None => false,
    }
}

// Answers of the search and of the check.
const ANSWERS: &[(Told, &str)] = &[
    (
        Told::DeltaSat(&["x"], &[Left::Real("0", "0")], 10),
        "delta-sat\ndelta 1b-10\nx 0\n",
    ),
    (
        Told::DeltaSat(&["x"], &[Left::Real("1b-1", "1b-1")], 10),
        "delta-sat\ndelta 1b-10\nx 1b-1\n",
    ),
    (
        Told::DeltaSat(&["x"], &[Left::Real("1b21", "1b21")], 10),
        "delta-sat\ndelta 1b-10\nx 1b21\n",
    ),
    (
        Told::DeltaSat(&["x"], &[Left::Real("-1b2", "-1b2")], 10),
        "delta-sat\ndelta 1b-10\nx -1b2\n",
    ),
    (
        Told::DeltaSat(
            &["x"],
            &[Left::Real("366503875925b-40", "366503875925b-40")],
            10,
        ),
        "delta-sat\ndelta 1b-10\nx 366503875925b-40\n",
    ),
    (Told::DeltaSat(&[], &[], 10), "delta-sat\ndelta 1b-10\n"),
    (
        Told::DeltaSat(
            &["b", "not yet", "let"],
            &[Left::True, Left::Real("3b0", "3b0"), Left::False],
            30,
        ),
        "delta-sat\ndelta 1b-30\nb true\n|not yet| 3b0\n|let| false\n",
    ),
    (Told::Budget(0), "unknown budget 0\n"),
    (Told::Budget(1_048_576), "unknown budget 1048576\n"),
    (
        Told::Width(
            &["x", "y"],
            &[Left::Real("-1b-1", "1b-1"), Left::Real("-1b-1", "1b-1")],
            4,
        ),
        "unknown width\natom 4\nx -1b-1 1b-1\ny -1b-1 1b-1\n",
    ),
    (
        Told::Width(&["x", "y"], &[Left::False, Left::Real("0", "7b-3")], 0),
        "unknown width\natom 0\nx false\ny 0 7b-3\n",
    ),
    (Told::Open(1), "open 1\n"),
    (
        Told::Open(18_446_744_073_709_551_615),
        "open 18446744073709551615\n",
    ),
];

#[test]
fn answers_are_told(rt: HostRuntime) {
    for (told, text) in ANSWERS {
        assert!(rt; is_told(rt.alloc(), told, text), "in place of {text}");
    }
}

// Refusals of certificates and of scripts.
const REFUSALS: &[(Told, &str)] = &[
    (
        Told::Refused(CertFault::BadHeader { line: 3 }),
        "certificate fault 1 BadHeader line 3\n",
    ),
    (
        Told::Refused(CertFault::BadNumber { line: 2 }),
        "certificate fault 2 BadNumber line 2\n",
    ),
    (
        Told::Refused(CertFault::RuleFails {
            rule: Word::By,
            line: 10,
        }),
        "certificate fault 3 RuleFails by line 10\n",
    ),
    (
        Told::Refused(CertFault::RuleFails {
            rule: Word::Narrow(NarrowingKind::Pull),
            line: 7,
        }),
        "certificate fault 3 RuleFails pull line 7\n",
    ),
    (
        Told::Refused(CertFault::RuleFails {
            rule: Word::Narrow(NarrowingKind::Combine),
            line: 8,
        }),
        "certificate fault 3 RuleFails comb line 8\n",
    ),
    (
        Told::Refused(CertFault::RuleFails {
            rule: Word::Void(NarrowingKind::Combine),
            line: 9,
        }),
        "certificate fault 3 RuleFails voidcomb line 9\n",
    ),
    (
        Told::Refused(CertFault::RuleFails {
            rule: Word::Squares,
            line: 10,
        }),
        "certificate fault 3 RuleFails voidpos line 10\n",
    ),
    (
        Told::Refused(CertFault::RuleFails {
            rule: Word::Either,
            line: 11,
        }),
        "certificate fault 3 RuleFails either line 11\n",
    ),
    (
        Told::Refused(CertFault::Missing { line: 15 }),
        "certificate fault 4 Missing line 15\n",
    ),
    (
        Told::Refused(CertFault::Extra { line: 16 }),
        "certificate fault 5 Extra line 16\n",
    ),
    (
        Told::Refused(CertFault::WrongBound { line: 4 }),
        "certificate fault 6 WrongBound line 4\n",
    ),
    (
        Told::Refused(CertFault::NotShown { line: 7 }),
        "certificate fault 7 NotShown line 7\n",
    ),
    (
        Told::Refused(CertFault::BadLine { line: 1 }),
        "certificate fault 8 BadLine line 1\n",
    ),
    (
        Told::Refused(CertFault::LineTooLong { line: 1 }),
        "certificate fault 9 LineTooLong line 1\n",
    ),
    (
        Told::Refused(CertFault::TooLong { line: 0 }),
        "certificate fault 10 TooLong line 0\n",
    ),
    (
        Told::TooMany(Limit::Bytes, 0, 0),
        "script fault 13 TooMany Bytes 0:0\n",
    ),
    (
        Told::TooMany(Limit::Depth, 1, 257),
        "script fault 13 TooMany Depth 1:257\n",
    ),
    (
        Told::TooMany(Limit::Axes, 9, 1),
        "script fault 13 TooMany Axes 9:1\n",
    ),
    (
        Told::TooMany(Limit::Size, 9, 1),
        "script fault 13 TooMany Size 9:1\n",
    ),
    (
        Told::TooMany(Limit::Nodes, 9, 1),
        "script fault 13 TooMany Nodes 9:1\n",
    ),
    (
        Told::TooMany(Limit::Atoms, 9, 1),
        "script fault 13 TooMany Atoms 9:1\n",
    ),
    (
        Told::TooMany(Limit::Forms, 9, 1),
        "script fault 13 TooMany Forms 9:1\n",
    ),
    // simple names as they are, all others in bars, and reserved words too
    (Told::Unknown("x"), "script fault 6 UnknownSymbol x 2:3\n"),
    (
        Told::Unknown("~!@$%^&*_-+=<>.?/Z9"),
        "script fault 6 UnknownSymbol ~!@$%^&*_-+=<>.?/Z9 2:3\n",
    ),
    (Told::Unknown("_x"), "script fault 6 UnknownSymbol _x 2:3\n"),
    (
        Told::Unknown("lets"),
        "script fault 6 UnknownSymbol lets 2:3\n",
    ),
    (Told::Unknown(""), "script fault 6 UnknownSymbol || 2:3\n"),
    (
        Told::Unknown("1a"),
        "script fault 6 UnknownSymbol |1a| 2:3\n",
    ),
    (
        Told::Unknown("a b"),
        "script fault 6 UnknownSymbol |a b| 2:3\n",
    ),
    (
        Told::Unknown("a:b"),
        "script fault 6 UnknownSymbol |a:b| 2:3\n",
    ),
    (Told::Unknown("é"), "script fault 6 UnknownSymbol |é| 2:3\n"),
    (Told::Unknown("!"), "script fault 6 UnknownSymbol |!| 2:3\n"),
    (Told::Unknown("_"), "script fault 6 UnknownSymbol |_| 2:3\n"),
    (
        Told::Unknown("as"),
        "script fault 6 UnknownSymbol |as| 2:3\n",
    ),
    (
        Told::Unknown("let"),
        "script fault 6 UnknownSymbol |let| 2:3\n",
    ),
    (
        Told::Unknown("exists"),
        "script fault 6 UnknownSymbol |exists| 2:3\n",
    ),
    (
        Told::Unknown("forall"),
        "script fault 6 UnknownSymbol |forall| 2:3\n",
    ),
    (
        Told::Unknown("match"),
        "script fault 6 UnknownSymbol |match| 2:3\n",
    ),
    (
        Told::Unknown("par"),
        "script fault 6 UnknownSymbol |par| 2:3\n",
    ),
];

#[test]
fn refusals_are_told(rt: HostRuntime) {
    for (told, text) in REFUSALS {
        assert!(rt; is_told(rt.alloc(), told, text), "in place of {text}");
    }
}
