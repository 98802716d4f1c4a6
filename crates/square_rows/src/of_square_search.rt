// Boxes that squares close, and boxes with a point: whether a line that is proposed is positive.
use crate::made::{number, space, told};
use dyadic::{Dy, Ext};
use ival::{Ival, Rows, Space};
use poly_graph::{Kind, Lits, Mark, Problem};
use problem_build::read_problem;
use square_search::{Boxed, Proposal, Proposals};
use squares::Combination;
use std::alloc::{AllocError, Global};

// What is asserted of x, y and z, whose bounds are atoms 0 to 5; the atoms of it; between which numbers each axis lies; and
// whether a line closes that box.
struct Row {
    what: &'static str,
    asserted: &'static str,
    atoms: &'static [u32],
    low: &'static str,
    high: &'static str,
    closes: bool,
}

const MARGIN_BITS: u32 = 20;

const MARGIN: &str = "1b-20";

const OPPOSITE_MARGIN: &str = "-1b-20";

// More lines than are proposed of a box.
const MANY: usize = 1000;

// ---- the box

fn script(alloc: Global, asserted: &str) -> Result<Vec<u8>, AllocError> {
    let mut text = Vec::new(alloc);
    text.extend_from_slice(b"(declare-const x Real)(declare-const y Real)")?;
    text.extend_from_slice(b"(declare-const z Real)(assert (<= (- 1) x 1))")?;
    text.extend_from_slice(b"(assert (<= (- 1) y 1))(assert (<= (- 1) z 1))(assert ")?;
    text.extend_from_slice(asserted.as_bytes())?;
    text.extend_from_slice(b")(check-sat)")?;
    Ok(text)
}

// Rows that say nothing of the nodes.
fn unknown(alloc: Global, problem: &Problem) -> Result<Rows, AllocError> {
    let mut rows = Rows::new(alloc, problem.graph().len())?;
    for n in 0..problem.graph().len() {
        if n < rows.len() {
            rows.set(n, Ival::everything());
        }
    }
    Ok(rows)
}

// These atoms are marked yes.
fn marked(alloc: Global, problem: &Problem, atoms: &[u32]) -> Result<Lits, AllocError> {
    let mut lits = Lits::new(alloc, problem.atoms().len())?;
    for atom in atoms {
        if (*atom as usize) < lits.len() {
            lits.set(*atom, Mark::Yes);
        }
    }
    Ok(lits)
}

fn middle_of(alloc: Global, space: &Space) -> Result<Space, AllocError> {
    let mut centre = space.try_clone(alloc)?;
    space.middle(&mut centre);
    Ok(centre)
}

// ---- what is proposed

// Where an atom's value lies, up to the margin.
fn range(kind: Kind) -> Option<Ival> {
    let low = Ext::Fin(number(OPPOSITE_MARGIN)?);
    let high = Ext::Fin(number(MARGIN)?);
    Some(match kind {
        Kind::Le => Ival::new(Ext::NegInf, high),
        Kind::Ge => Ival::new(low, Ext::PosInf),
        Kind::Eq => Ival::new(low, high),
    })
}

fn ranges(alloc: Global, problem: &Problem, pairs: &[(u32, Dy)]) -> Option<Vec<Ival>> {
    let atoms = problem.atoms();
    let mut ranges = Vec::new(alloc);
    for (atom, _) in pairs {
        let atom = *atom as usize;
        if atom >= atoms.len() {
            return None;
        }
        ranges.push(range(atoms[atom].kind)?).ok()?;
    }
    Some(ranges)
}

// Whether the line is positive.
fn is_positive(alloc: Global, boxed: &Boxed<'_>, line: &Proposal) -> Option<bool> {
    let ranges = ranges(alloc, boxed.problem, &line.pairs)?;
    let combination = Combination {
        problem: boxed.problem,
        multipliers: &line.pairs,
        ranges: &ranges,
    };
    told(alloc, &combination, &line.blocks, boxed.space, boxed.centre)
}

// Whether a line that is proposed closes the box.
fn closes(alloc: Global, boxed: &Boxed<'_>) -> Option<bool> {
    let mut proposals = Proposals::of(alloc, boxed).ok()?;
    for _ in 0..MANY {
        match proposals.next(alloc).ok()? {
            None => return Some(false),
            Some(line) => {
                if is_positive(alloc, boxed, &line)? {
                    return Some(true);
                }
            }
        }
    }
    None
}

// Whether a line closes the row's box, within so many steps.
fn closes_within(alloc: Global, row: &Row, most_steps: u64) -> Option<bool> {
    let text = script(alloc, row.asserted).ok()?;
    let problem = read_problem(alloc, &text, None).ok()?;
    let space = space(alloc, &problem, row.low, row.high)?;
    let centre = middle_of(alloc, &space).ok()?;
    let lits = marked(alloc, &problem, row.atoms).ok()?;
    let rows = unknown(alloc, &problem).ok()?;
    closes(
        alloc,
        &Boxed {
            problem: &problem,
            margin_bits: MARGIN_BITS,
            lits: &lits,
            space: &space,
            rows: &rows,
            centre: &centre,
            most_steps,
        },
    )
}

// ---- rows

const APART: &str = "(<= (+ (* x x) (* (- 2) x y) (* y y) 1) 0)";

const ROWS: [Row; 13] = [
    Row {
        what: "(x - y)^2 + 1",
        asserted: APART,
        atoms: &[6],
        low: "-1b0",
        high: "1b0",
        closes: true,
    },
    Row {
        what: "the same far from 0, from 1,000 to 1,001",
        asserted: APART,
        atoms: &[6],
        low: "125b3",
        high: "1001b0",
        closes: true,
    },
    Row {
        what: "the same in a small box",
        asserted: APART,
        atoms: &[6],
        low: "-1b-30",
        high: "1b-30",
        closes: true,
    },
    Row {
        what: "x y + 2, which no squares are without bounds",
        asserted: "(<= (+ (* x y) 2) 0)",
        atoms: &[6],
        low: "-1b0",
        high: "1b0",
        closes: true,
    },
    Row {
        what: "x y + 1, which is 0 at (1, -1)",
        asserted: "(<= (+ (* x y) 1) 0)",
        atoms: &[6],
        low: "-1b0",
        high: "1b0",
        closes: false,
    },
    Row {
        what: "Rosenbrock's function",
        asserted: "(<= (+ (* 100 (- y (* x x)) (- y (* x x))) (* (- 1 x) (- 1 x))) (- (/ 1 1024)))",
        atoms: &[6],
        low: "-1b0",
        high: "1b0",
        closes: true,
    },
    Row {
        what: "the same, which is 0 at (1, 1)",
        asserted: "(<= (+ (* 100 (- y (* x x)) (- y (* x x))) (* (- 1 x) (- 1 x))) 0)",
        atoms: &[6],
        low: "-1b0",
        high: "1b0",
        closes: false,
    },
    Row {
        what: "x^2 + 1 - z and 2 x y - y^2 - z, whose difference is (x - y)^2 + 1",
        asserted: "(and (<= (+ (* x x) 1) z) (>= (- (* 2 x y) (* y y)) z))",
        atoms: &[6, 7],
        low: "-1b0",
        high: "1b0",
        closes: true,
    },
    Row {
        what: "the second alone",
        asserted: "(and (<= (+ (* x x) 1) z) (>= (- (* 2 x y) (* y y)) z))",
        atoms: &[7],
        low: "-1b0",
        high: "1b0",
        closes: false,
    },
    Row {
        what: "(x - y)^2, of an equation",
        asserted: "(= (* (- x y) (- x y)) (- (/ 1 4)))",
        atoms: &[6],
        low: "-1b0",
        high: "1b0",
        closes: true,
    },
    Row {
        what: "x + 1/2, with no product",
        asserted: "(<= (+ x (/ 1 2)) 0)",
        atoms: &[6],
        low: "0",
        high: "1b0",
        closes: false,
    },
    Row {
        what: "x, which may be 0",
        asserted: "(<= x 0)",
        atoms: &[6],
        low: "0",
        high: "1b0",
        closes: false,
    },
    Row {
        what: "(x - y)^2 + 1, not marked",
        asserted: APART,
        atoms: &[],
        low: "-1b0",
        high: "1b0",
        closes: false,
    },
];

#[test]
fn boxes_are_closed(rt: HostRuntime) {
    for row in &ROWS {
        let found = closes_within(rt.alloc(), row, 1_000_000_000);
        assert!(rt; found == Some(row.closes), "{}", row.what);
    }
}

#[test]
fn nothing_is_found_without_steps(rt: HostRuntime) {
    assert!(rt; closes_within(rt.alloc(), &ROWS[0], 0) == Some(false));
}
