use std::alloc::Global;
use term_build::*;

// The numbers of nodes, atoms and nodes of a form where one expression was reached.
fn counts(alloc: Global) -> Result<(usize, usize, usize), Stop> {
    let mut builder = Builder::new(alloc, Vec::new(alloc));
    builder.reach()?;
    let (graph, atoms, forms) = builder.into_parts();
    Ok((graph.len(), atoms.len(), forms.len()))
}

#[test]
fn begins_with_nothing(rt: HostRuntime) {
    assert_eq!(rt; counts(rt.alloc()), Ok((0, 0, 0)));
}
