// The ranges of declared constants.
ghost use Rattle.std.specs.Prelude.{◌≡◌, ◌∷◌, ◌++◌, ℕ, [], List, Bool, IsTrue, cond, ◌||◌, length, map, IfOk};
ghost use Rattle.dyadic.specs.End.{greater_ext, lesser_ext};
ghost use Rattle.dyadic.specs.Views.{ext_of};
ghost use Rattle.interval_model.specs.Interval.{is_nothing, nothing};
ghost use Rattle.ival.specs.Proper.{is_high, is_low};
ghost use Rattle.ival.specs.Views.{interval_of};
ghost use Rattle.root_rewriting.specs.Asserted.{AreAsserted};
ghost use Rattle.root_rewriting.specs.Nodes.{trees_in};
ghost use Rattle.script_model.specs.Declared.{default_high, default_low};
ghost use Rattle.script_roots.specs.Fresh as fresh;
ghost use Rattle.script_roots.specs.TreeBounds as model;
ghost use Rattle.script_roots.specs.TreeBounds.{box_ranges, in_box, is_empty_from, ranges_from};
ghost use Rattle.smt_script.specs.Views.{commands_in, sort_of};
ghost use Rattle.root_rewriting.specs.Bounds.{AreTightest, bounds_of, end_of, range_with, tightened_on, tightest_by, with_end};
ghost use Rattle.root_rewriting.specs.Constants.{constant_of};
ghost use Rattle.root_rewriting.specs.Enclosures.{KnowsRanges};
ghost use Rattle.root_rewriting.specs.Ends.{end_bound_of, ends_of_all};
ghost use Rattle.root_rewriting.specs.Sides.{side_of};

use crate::range::bounds::Bounds;
use crate::range::constants::{Constant, axes, constants};
use crate::range::end_bound::EndBound;
use crate::range::roots::whole;
use crate::range::shapes::shapes;
use crate::range::side::Side;
use crate::range::sweep::{conjuncts, marked_ends};
use crate::unfold::AssertedTrees;
use dyadic::{Ext, at_most, down_frac, up_frac};
use ival::Ival;
use smt_script::{Script, Sort};
use std::alloc::{AllocError, Global};
use std::collections::HashMap;

// The greater of an end, where there is one, and another.
fn greater(end: Option<Ext>, other: Ext) -> Ext
    ensures { ext_of result ≡ with_end greater_ext (end_of end) (ext_of other) }
{
    match end {
        Some(end) if !at_most(end, other) => end,
        _ => other,
    }
}

// The lesser of an end, where there is one, and another.
fn lesser(end: Option<Ext>, other: Ext) -> Ext
    ensures { ext_of result ≡ with_end lesser_ext (end_of end) (ext_of other) }
{
    match end {
        Some(end) if at_most(end, other) => end,
        _ => other,
    }
}

impl Bounds {
    // No end.
    fn none() -> Self
        ensures { bounds_of result ≡ tightest_by [] 0 }
    {
        Bounds {
            low: None,
            high: None,
        }
    }

    // The ends with one more on its side.
    fn tightened(self, bound: EndBound) -> Self
        ensures { bounds_of result ≡
            tightened_on (side_of bound.side) (ext_of bound.end) (bounds_of self) }
    {
        match bound.side {
            Side::Lower => Bounds {
                low: Some(greater(self.low, bound.end)),
                high: self.high,
            },
            Side::Upper => Bounds {
                low: self.low,
                high: Some(lesser(self.high, bound.end)),
            },
        }
    }
}

// Adds an end to those of its constant, if there is such a constant.
fn tighten(bounds: &mut Vec<Bounds>, end: EndBound)
    ensures { (es : List model.EndBound) (axes : ℕ) → AreTightest es axes bounds.old.items →
        AreTightest (es ++ (end_bound_of end ∷ [])) axes bounds.new.items }
{
    if end.axis < bounds.len() {
        bounds[end.axis] = bounds[end.axis].tightened(end);
    }
}

// The tightest ends of so many constants.
fn tightest(alloc: Global, ends: &[EndBound], axes: usize) -> Result<Vec<Bounds>, AllocError>
    ensures { IfOk result (λ bs. AreTightest (ends_of_all ends.now) axes bs.items) }
{
    let mut bounds = vec![in alloc; Bounds::none(); axes]?;
    for end in ends {
        tighten(&mut bounds, *end);
    }
    Ok(bounds)
}

// The lower end of a constant without one.
fn low_end(bound: Option<u32>) -> Ext
    ensures end { ext_of result ≡ model.low_end (default_low bound) }
    ensures low { IsTrue (is_low (ext_of result)) }
{
    match bound {
        Some(number) => down_frac(whole(u64::from(number)).neg()),
        None => Ext::NegInf,
    }
}

// The upper end of a constant without one.
fn high_end(bound: Option<u32>) -> Ext
    ensures end { ext_of result ≡ model.high_end (default_high bound) }
    ensures high { IsTrue (is_high (ext_of result)) }
{
    match bound {
        Some(number) => up_frac(whole(u64::from(number))),
        None => Ext::PosInf,
    }
}

// The range of a constant of this sort with these ends.
fn range(bound: Option<u32>, bounds: Bounds, sort: Sort) -> Ival
    ensures { interval_of result ≡ range_with bound (bounds_of bounds) (sort_of sort) }
{
    match sort {
        Sort::Real => Ival::new(
            bounds.low.unwrap_or(low_end(bound)),
            bounds.high.unwrap_or(high_end(bound)),
        ),
        Sort::Bool => Ival::everything(),
    }
}

// Whether an interval is empty.
fn is_nothing(range: Ival) -> bool
    ensures { result ≡ is_nothing (interval_of range) }
{
    matches!(range, Ival::Empty)
}

fn either(one: bool, other: bool) -> bool
    ensures { result ≡ (one || other) }
{
    one || other
}

// Whether the range of one of these constants is empty.
fn is_empty(bound: Option<u32>, constants: &[Constant<'_>], bounds: &[Bounds]) -> bool
    requires { length bounds.now ≡ length constants.now }
    ensures { (es : List model.EndBound) → AreTightest es (length constants.now) bounds.now →
        result ≡ is_empty_from (model.range_of bound es) 0 (map constant_of constants.now) }
{
    let mut empty = false;
    for (axis, constant) in constants.iter().enumerate() {
        let here = is_nothing(range(bound, bounds[axis], constant.sort));
        empty = either(empty, here);
    }
    empty
}

// The range of a constant of this sort with these ends, in a box that is empty or not.
fn range_in(empty: bool, bound: Option<u32>, bounds: Bounds, sort: Sort) -> Ival
    ensures { interval_of result ≡
        cond empty nothing (range_with bound (bounds_of bounds) (sort_of sort)) }
{
    if empty {
        Ival::Empty
    } else {
        range(bound, bounds, sort)
    }
}

// The ranges of constants with these ends, in a box that is empty or not, by name.
fn ranges_in<'a>(
    alloc: Global,
    empty: bool,
    bound: Option<u32>,
    constants: &[Constant<'a>],
    bounds: &[Bounds],
) -> Result<HashMap<&'a [u8], Ival>, AllocError>
    requires { length bounds.now ≡ length constants.now }
    ensures { (es : List model.EndBound) → AreTightest es (length constants.now) bounds.now →
        IfOk result (λ m. KnowsRanges m (ranges_from (in_box empty (model.range_of bound es)) 0 []
        (map constant_of constants.now))) }
{
    let mut ranges = HashMap::new(alloc);
    for (axis, constant) in constants.iter().enumerate() {
        ranges.insert(
            constant.name.as_slice(),
            range_in(empty, bound, bounds[axis], constant.sort),
        )?;
    }
    Ok(ranges)
}

// The ranges of constants with these ends, by name: where one is empty all are.
fn ranges<'a>(
    alloc: Global,
    bound: Option<u32>,
    constants: &[Constant<'a>],
    bounds: &[Bounds],
) -> Result<HashMap<&'a [u8], Ival>, AllocError>
    requires { length bounds.now ≡ length constants.now }
    ensures { (es : List model.EndBound) → AreTightest es (length constants.now) bounds.now →
        IfOk result (λ m. KnowsRanges m
        (box_ranges (model.range_of bound es) (map constant_of constants.now))) }
{
    let empty = is_empty(bound, constants, bounds);
    ranges_in(alloc, empty, bound, constants, bounds)
}

/// The ranges of a script's declared constants, by name.
pub(crate) fn declared_ranges<'a>(
    alloc: Global,
    script: &Script<'a>,
    asserted: &AssertedTrees<'a>,
    bound: Option<u32>,
) -> Result<HashMap<&'a [u8], Ival>, AllocError>
    requires { AreAsserted (trees_in asserted.now.trees) asserted.now.assertions.items
        (fresh.asserted (commands_in script.now)) }
    ensures { IfOk result (λ m.
        KnowsRanges m (model.declared_ranges bound (commands_in script.now))) }
{
    let constants = constants(alloc, script)?;
    let axes = axes(alloc, constants.as_slice())?;
    let shapes = shapes(alloc, &asserted.trees, &axes)?;
    let marks = conjuncts(alloc, asserted)?;
    let ends = marked_ends(alloc, &asserted.trees, shapes.as_slice(), marks.as_slice())?;
    let bounds = tightest(alloc, ends.as_slice(), constants.len())?;
    ranges(alloc, bound, constants.as_slice(), bounds.as_slice())
}
