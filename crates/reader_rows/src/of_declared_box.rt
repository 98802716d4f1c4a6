use declared_box::*;
use dyadic::Frac;
use poly_graph::{Axis, Declared};
use script_fault::{Name, Place, ReadError};
use smt_script::Sort;
use std::alloc::{AllocError, Global};
use std::test::Fail;

// The list that joins these, if there are such lists.
fn joined(table: &mut BoundTable, parts: Vec<u32>) -> Option<u32> {
    for part in &parts {
        if *part as usize >= table.len() {
            return None;
        }
    }
    table.all(parts).ok()
}

// A Real x and a Bool p, declared at 1:1 and 2:3, by the bounds of this list, if there is such a list.
fn declared(
    alloc: Global,
    table: &BoundTable,
    root: u32,
    bound: Option<u32>,
) -> Result<Vec<Axis>, ReadError> {
    let x = Name::from_slice(alloc, b"x")?;
    let p = Name::from_slice(alloc, b"p")?;
    let constants = [
        Constant {
            place: Place { line: 1, column: 1 },
            name: &x,
            sort: Sort::Real,
        },
        Constant {
            place: Place { line: 2, column: 3 },
            name: &p,
            sort: Sort::Bool,
        },
    ];
    if root as usize >= table.len() {
        return Err(ReadError::Memory);
    }
    declare(alloc, table, &[root], bound, &constants)
}

// What is declared of x and p, or the text of the fault.
fn told(
    alloc: Global,
    table: &BoundTable,
    root: u32,
    bound: Option<u32>,
) -> Result<String, AllocError> {
    match declared(alloc, table, root, bound) {
        Ok(axes) => {
            let mut text = String::new(alloc);
            for axis in &axes {
                text.push_str(&format!(in alloc; "{:?};", axis.declared)?)?;
            }
            Ok(text)
        }
        Err(fault) => format!(in alloc; "{fault}"),
    }
}

#[test]
fn shared_bounds_are_joined(rt: HostRuntime) -> Result<(), Fail> {
    let alloc = rt.alloc();
    let mut table = BoundTable::new(alloc);
    let quarter = table.one(0, Side::Lower, Frac::new(1, 4))?;
    let more = table.one(0, Side::Lower, Frac::new(3, 2))?;
    let five = table.one(0, Side::Upper, Frac::new(5, 1))?;
    let wide = table.one(0, Side::Upper, Frac::new(100_000_000_000_000_000_000, 3))?;
    let below = joined(&mut table, vec![in alloc; more, quarter]?).unwrap_or(0);
    let both = joined(&mut table, vec![in alloc; below, five, below]?).unwrap_or(0);
    let far = joined(&mut table, vec![in alloc; below, wide]?).unwrap_or(0);
    assert_eq!(rt; table.len(), 7);
    let rows = [
        (
            both,
            None,
            "Real(Frac { n: 3, d: 2 }, Frac { n: 5, d: 1 });Bool;",
        ),
        (
            below,
            Some(7),
            "Real(Frac { n: 3, d: 2 }, Frac { n: 7, d: 1 });Bool;",
        ),
        (
            five,
            Some(7),
            "Real(Frac { n: -7, d: 1 }, Frac { n: 5, d: 1 });Bool;",
        ),
        (below, None, "no bound of x at 1:1"),
        (wide, None, "no bound of x at 1:1"),
        (far, None, "bound of x too wide at 1:1"),
    ];
    for (root, bound, wanted) in rows {
        let text = told(alloc, &table, root, bound)?;
        assert_eq!(rt; text.as_str(), wanted);
    }
    Ok(())
}
