// The combination that is known to leave nothing of the present space.
ghost use Rattle.std.specs.Prelude.{◌≡◌, ◌≢◌, ◌<◌, length, true, false};
ghost use Rattle.poly_graph.specs.Marks.{is_no, mark_at};
ghost use Rattle.cover_model.specs.Views.{multipliers_of};
ghost use Rattle.cover_rule.specs.Pairs.{AreMarkedIn, ArePairs, IsNoted, pair_of, marked_pair};

use dyadic::Dy;
use ival::Narrowed;
use poly_graph::{Lits, Mark};
use std::alloc::Global;

/// An atom of a combination with its multiplier, and whether it was marked no.
#[derive(Clone, Copy)]
pub struct MarkedPair {
    pub atom: u32,
    pub multiplier: Dy,
    pub is_no: bool,
}

/// A combination that leaves nothing of the present space, where one is known.
#[derive(Drop)]
pub struct Voiding {
    pub pairs: Vec<MarkedPair, Global>,
    /// Whether it is known.
    pub known: bool,
}

// Whether atom j is marked no.
fn is_no(lits: &Lits, j: u32) -> bool
    requires { j < length lits.now }
    ensures { result ≡ is_no (mark_at lits.now j) }
{
    match lits.mark(j) {
        Mark::No => true,
        Mark::Yes | Mark::Neither => false,
    }
}

// An atom with its multiplier and its mark.
fn marked_pair(lits: &Lits, atom: u32, multiplier: Dy) -> MarkedPair
    requires { atom < length lits.now }
    ensures { pair_of result ≡ marked_pair lits.now atom multiplier }
{
    MarkedPair {
        atom,
        multiplier,
        is_no: is_no(lits, atom),
    }
}

// Whether these are the same.
fn is_same(pair: MarkedPair, other: MarkedPair) -> bool
    ensures { result ≡ true → pair_of pair ≡ pair_of other }
{
    pair.atom == other.atom && pair.multiplier == other.multiplier && pair.is_no == other.is_no
}

// Whether the combination is of these pairs.
fn is_of(lits: &Lits, multipliers: &[(u32, Dy)], pairs: &[MarkedPair]) -> bool
    requires { AreMarkedIn lits.now multipliers.now }
    ensures { result ≡ true → ArePairs lits.now multipliers.now pairs.now }
{
    if pairs.len() != multipliers.len() {
        return false;
    }
    for k in 0..multipliers.len() {
        let pair = multipliers[k];
        let marked = marked_pair(lits, pair.0, pair.1);
        if !is_same(pairs[k], marked) {
            return false;
        }
    }
    true
}

// Puts in the pairs of the combination; whether there is memory for them.
fn put(lits: &Lits, multipliers: &[(u32, Dy)], pairs: &mut Vec<MarkedPair, Global>) -> bool
    requires { AreMarkedIn lits.now multipliers.now }
    ensures { result ≡ true → ArePairs lits.now multipliers.now pairs.new.items }
{
    pairs.clear();
    for k in 0..multipliers.len() {
        let pair = multipliers[k];
        let marked = marked_pair(lits, pair.0, pair.1);
        let Ok(()) = pairs.push(marked) else {
            return false;
        };
    }
    true
}

impl Voiding {
    /// Nothing known.
    pub fn new(alloc: Global) -> Voiding
        ensures { result.known ≡ false }
    {
        Voiding {
            pairs: Vec::new(alloc),
            known: false,
        }
    }

    /// Notes the combination where nothing is left by it; out of memory, nothing is known.
    pub fn note(&mut self, narrowed: Narrowed, lits: &Lits, multipliers: &[(u32, Dy)])
        requires { AreMarkedIn lits.now multipliers.now }
        ensures other { narrowed ≢ Narrowed.Empty → self.new ≡ self.old }
        ensures noted { narrowed ≡ Narrowed.Empty →
            IsNoted lits.now (multipliers_of multipliers.now) self.new }
    {
        match narrowed {
            Narrowed::Empty => self.known = put(lits, multipliers, &mut self.pairs),
            Narrowed::Same | Narrowed::Less => {}
        }
    }

    /// Whether the combination is the one that is known.
    pub fn knows(&self, lits: &Lits, multipliers: &[(u32, Dy)]) -> bool
        requires { AreMarkedIn lits.now multipliers.now }
        ensures known { result ≡ true → self.now.known ≡ true }
        ensures pairs { result ≡ true → ArePairs lits.now multipliers.now self.now.pairs.items }
    {
        self.known && is_of(lits, multipliers, &self.pairs)
    }
}
