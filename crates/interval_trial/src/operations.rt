// Operations by their names.
use dyadic::{Ext, read_dy};
use ival::Ival;

// The end that the text spells, an infinity as `inf` or `-inf`.
fn end(text: &str) -> Option<Ext> {
    match text {
        "inf" => Some(Ext::PosInf),
        "-inf" => Some(Ext::NegInf),
        _ => read_dy(text.as_bytes()).ok().map(Ext::Fin),
    }
}

// What lies between two ends that are spelled so.
fn interval(low: &str, high: &str) -> Option<Ival> {
    match (end(low)?, end(high)?) {
        (Ext::PosInf, _) | (_, Ext::NegInf) => None,
        (low, high) => Some(Ival::new(low, high)),
    }
}

// What an operation on two intervals gives.
fn result(name: &str, a: Ival, b: Ival) -> Option<Ival> {
    match name {
        "add" => Some(a.add(b)),
        "neg" => Some(a.neg()),
        "mul" => Some(a.mul(b)),
        "sq" => Some(a.sq()),
        "meet" => Some(a.meet(b)),
        "hull" => Some(a.hull(b)),
        "inv_add" => Some(a.inv_add(b)),
        "inv_mul" => Some(a.inv_mul(b)),
        "inv_sq" => Some(a.inv_sq(b)),
        "within" => Some(if a.within(b) { a } else { Ival::Empty }),
        _ => None,
    }
}

/// What the operation of a line gives.
pub fn computed(line: &str) -> Option<Ival> {
    let mut words = line.split(' ');
    let name = words.next()?;
    let first = interval(words.next()?, words.next()?)?;
    let second = interval(words.next()?, words.next()?)?;
    result(name, first, second)
}
