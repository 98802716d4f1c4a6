// Equal factors of a product, put in a row where the first of them stands.
ghost use Rattle.std.specs.Prelude.{◌≡◌, ◌<◌, ◌+◌, ◌++◌, ◌∷◌, ◌^◌, [], true, length, replicate, IfOk, OnOk};
ghost use Rattle.term_build.specs.Built.{IsMade};
ghost use Rattle.value_build.specs.Arithmetic.{AreNodes};
ghost use Rattle.value_build.specs.Groups.{AddsFactor, AreGroups, Gathers, all_in_rows, are_in_rows, expanded, is_among, one_of, raised};

use std::alloc::{AllocError, Global};
use std::collections::HashMap;
use term_build::Builder;

// So many factors are looked at for whether they have to be gathered.
const FEW: usize = 16;

// A factor, and how often it stands.
#[derive(Clone, Copy)]
struct Group {
    factor: u32,
    times: usize,
}

/// Each tree that was made is one node.
pub(crate) fn trees_are_shared(builder: &Builder)
    ensures { IsMade builder.now }
{
    let _ = builder.nodes();
}

// A factor stands for the first time.
fn begin(groups: &mut Vec<Group>, factor: u32) -> Result<(), AllocError>
    ensures { OnOk result (groups.new.items ≡ groups.old.items ++ (one_of factor ∷ [])) }
{
    groups.push(Group { factor, times: 1 })?;
    Ok(())
}

// The factor of a group stands once more.
fn raise(groups: &mut Vec<Group>, place: usize)
    requires place { place < length groups.old.items }
    requires room { length (expanded groups.old.items) + 1 < 2 ^ 64 }
    ensures { groups.new.items ≡ raised groups.old.items place }
{
    groups[place].times += 1;
}

// Counts a factor. A constant is a group of its own, each other factor is found by its node.
fn add(
    builder: &Builder,
    groups: &mut Vec<Group>,
    places: &mut HashMap<u32, usize>,
    factor: u32,
) -> Result<(), AllocError>
    requires made { IsMade builder.now }
    requires factor { factor < length builder.now.nodes }
    requires grouped { AreGroups builder.now groups.old.items places.old }
    requires room { length (expanded groups.old.items) + 1 < 2 ^ 64 }
    ensures { OnOk result
        (AddsFactor builder.now groups.old.items groups.new.items places.new factor) }
{
    if let Some(_) = builder.constant_at(factor) {
        return begin(groups, factor);
    }
    if let Some(place) = places.get(&factor).copied() {
        raise(groups, place);
        return Ok(());
    }
    places.insert(factor, groups.len())?;
    begin(groups, factor)
}

// Puts the factor of a group behind others, as often as it stands.
fn append(factors: &mut Vec<u32>, group: Group) -> Result<(), AllocError>
    ensures { OnOk result (factors.new.items
        ≡ factors.old.items ++ replicate group.times group.factor) }
{
    for _ in 0..group.times {
        factors.push(group.factor)?;
    }
    Ok(())
}

// The factors of groups, each as often as it stands.
fn expand(alloc: Global, groups: &[Group]) -> Result<Vec<u32>, AllocError>
    ensures { IfOk result (λ factors. factors.items ≡ expanded groups.now) }
{
    let mut factors = Vec::new(alloc);
    let mut left = groups;
    while let Some((group, later)) = left.split_first() {
        append(&mut factors, *group)?;
        left = later;
    }
    Ok(factors)
}

// Whether the factor stands among these.
fn is_among(factor: u32, nodes: &[u32]) -> bool
    ensures { result ≡ is_among factor nodes.now }
{
    let mut left = nodes;
    while let Some((next, later)) = left.split_first() {
        if factor == *next {
            return true;
        }
        left = later;
    }
    false
}

// Whether equal factors stand in rows, of a first one and others.
fn are_in_rows(first: u32, others: &[u32]) -> bool
    ensures { result ≡ are_in_rows first others.now }
{
    let mut row = first;
    let mut left = others;
    while let Some((next, later)) = left.split_first() {
        if row != *next {
            if is_among(row, later) {
                return false;
            }
            row = *next;
        }
        left = later;
    }
    true
}

/// Whether there are few factors, and those that are equal stand in rows.
pub(crate) fn stand_in_rows(nodes: &[u32]) -> bool
    ensures { result ≡ true → all_in_rows nodes.now ≡ true }
{
    if nodes.len() > FEW {
        return false;
    }
    match nodes.split_first() {
        Some((first, others)) => are_in_rows(*first, others),
        None => true,
    }
}

/// The factors of a product, those that are equal in a row where the first of them stands. It takes the time of the
/// number of factors.
pub(crate) fn gather(
    alloc: Global,
    builder: &Builder,
    nodes: &[u32],
) -> Result<Vec<u32>, AllocError>
    requires nodes { AreNodes builder.now nodes.now }
    requires room { length nodes.now < 2 ^ 64 }
    ensures { IfOk result (λ factors. Gathers builder.now nodes.now factors.items) }
{
    trees_are_shared(builder);
    let mut groups = Vec::new(alloc);
    let mut places = HashMap::new(alloc);
    let mut left = nodes;
    while let Some((next, later)) = left.split_first() {
        add(builder, &mut groups, &mut places, *next)?;
        left = later;
    }
    expand(alloc, &groups)
}
