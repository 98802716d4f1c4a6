// Two watched literals a clause (Moskewicz, Madigan, Zhao, Zhang, Malik 2001), over fixed lists of the
// clauses of each literal: a clause is looked into only for a watched literal, and nothing is ever moved.
ghost use Rattle.std.specs.Prelude.{◌≡◌, ◌≢◌, ◌<◌, ◌≤◌, ◌+◌, ℕ, length, IfOk, IsTrue, Some, slice_get, vec_len};
ghost use Rattle.clause_search.specs.Clauses as clauses;
ghost use Rattle.clause_search.specs.declared.table.Table.{Table};
ghost use Rattle.clause_search.specs.Table.{opposite, is_false, is_undecided, value_for, SetsOne};
ghost use Rattle.clause_search.specs.Lists.{AreListed};

use crate::clause::{Choice, Found, choose, rewatch};
use crate::lists::{add_clause, clause_at, code_of, empty_lists, list_len};
use crate::table::Table;
use crate::{Cnf, Literal, Variable};
use std::alloc::{AllocError, Global};

/// Which clauses are to be looked at.
#[derive(Drop)]
pub struct Watches {
    atoms: u32,
    axes: u32,
    lists: Vec<Vec<u32>>,
    first: Vec<Literal>,
    second: Vec<Literal>,
    // clauses below this number have their watched literals
    started: usize,
    // literals that came onto the trail since; those before `next` have been seen, and of the list of the
    // opposite of `next` the clauses before `at`
    queue: Vec<Literal>,
    next: usize,
    at: usize,
}

// As many literals.
fn placeholders(alloc: Global, count: usize) -> Result<Vec<Literal>, AllocError>
    ensures { IfOk result (λ v. vec_len v ≡ count) }
{
    let literal = Literal {
        variable: Variable::Atom(0),
        positive: true,
    };
    let literals = vec![in alloc; literal; count]?;
    Ok(literals)
}

fn opposite(literal: Literal) -> Literal
    ensures { result ≡ opposite literal }
{
    Literal {
        variable: literal.variable,
        positive: !literal.positive,
    }
}

// The lists of the clauses of each literal.
fn all_lists(alloc: Global, cnf: &Cnf) -> Result<Vec<Vec<u32>>, AllocError>
    ensures { IfOk result (AreListed cnf.now) }
{
    let atoms = cnf.atoms();
    let axes = cnf.axes();
    let places = atoms as usize + 2 * axes as usize + cnf.helpers() as usize;
    let mut lists = empty_lists(alloc, 2 * places)?;
    let Ok(count) = u32::try_from(cnf.len()) else {
        return Err(AllocError);
    };
    for i in 0..count {
        add_clause(&mut lists, atoms, axes, cnf.clause(i as usize), i)?;
    }
    Ok(lists)
}

impl Watches {
    ghost use Rattle.clause_search.specs.Watches.{IsWatching, IsWatchingAlso, HasLists, StepSays, ListSays, StartsAll, VisitsAll, SameQueue, list_of};
    ghost use Rattle.clause_search.specs.Found.{SeesAll};

    /// Nothing is looked at yet.
    pub fn new(alloc: Global, cnf: &Cnf) -> Result<Self, AllocError>
        ensures { IfOk result (λ w. (t : Table) → IsWatching cnf.now t w) }
    {
        let places = cnf.atoms() as usize + 2 * cnf.axes() as usize + cnf.helpers() as usize;
        Ok(Watches {
            atoms: cnf.atoms(),
            axes: cnf.axes(),
            lists: all_lists(alloc, cnf)?,
            first: placeholders(alloc, cnf.len())?,
            second: placeholders(alloc, cnf.len())?,
            started: 0,
            queue: Vec::with_capacity(alloc, places)?,
            next: 0,
            at: 0,
        })
    }

    /// All clauses are to be looked at again.
    pub fn restart(&mut self)
        ensures { (c : clauses.Cnf) (t : Table) → HasLists c self.old → IsWatching c t self.new }
    {
        self.started = 0;
        self.queue.clear();
        self.next = 0;
        self.at = 0;
    }

    // Chooses the watched literals of the next clause.
    fn start(&mut self, values: &Table, cnf: &Cnf) -> Found
        requires watching { IsWatching cnf.now values.now self.old }
        requires more { self.old.started < length cnf.now.clauses }
        ensures watching { IsWatching cnf.now values.now self.new }
        ensures says { StepSays cnf.now values.now self.old.started self.new.started result }
    {
        let i = self.started;
        match choose(values, cnf.clause(i)) {
            Choice::Watch(first, second) => {
                self.first[i] = first;
                self.second[i] = second;
                self.started = i + 1;
                Found::Settled
            }
            Choice::Unit(literal) => Found::Unit(literal),
            Choice::Conflict => Found::Conflict,
        }
    }

    /// A literal came onto the trail.
    pub fn enqueue(&mut self, literal: Literal)
        ensures { IsWatchingAlso self.old self.new literal }
    {
        if self.started == 0 {
            return;
        }
        // there is room for each variable; without it all clauses would be looked at again
        match self.queue.push(literal) {
            Ok(()) => {}
            Err(_) => self.restart(),
        }
    }

    // Looks at the next clause of the list of a literal that has become false.
    fn visit(&mut self, values: &Table, cnf: &Cnf, literal: Literal) -> Found
        requires watching { IsWatching cnf.now values.now self.old }
        requires all { self.old.started ≡ length cnf.now.clauses }
        requires queued { slice_get self.old.queue.items self.old.next ≡ Some (opposite literal) }
        requires known { IsTrue (is_false values.now literal) }
        requires more { self.old.at < length (list_of self.old literal) }
        ensures watching { IsWatching cnf.now values.now self.new }
        ensures same { SameQueue self.old self.new }
        ensures says { StepSays cnf.now values.now self.old.at self.new.at result }
    {
        let k = code_of(self.atoms, self.axes, literal);
        let i = clause_at(&self.lists, k, self.at) as usize;
        if i >= self.started {
            self.at += 1;
            return Found::Settled;
        }
        match rewatch(
            values,
            cnf.clause(i),
            literal,
            self.first[i],
            self.second[i],
        ) {
            Choice::Watch(first, second) => {
                self.first[i] = first;
                self.second[i] = second;
                self.at += 1;
                Found::Settled
            }
            Choice::Unit(other) => Found::Unit(other),
            Choice::Conflict => Found::Conflict,
        }
    }

    // Looks at the clauses of the list of a literal that has become false.
    fn visit_list(&mut self, values: &Table, cnf: &Cnf, literal: Literal) -> Found
        requires watching { IsWatching cnf.now values.now self.old }
        requires all { self.old.started ≡ length cnf.now.clauses }
        requires queued { slice_get self.old.queue.items self.old.next ≡ Some (opposite literal) }
        requires known { IsTrue (is_false values.now literal) }
        ensures watching { IsWatching cnf.now values.now self.new }
        ensures same { SameQueue self.old self.new }
        ensures says { ListSays cnf.now values.now self.new literal result }
    {
        let k = code_of(self.atoms, self.axes, literal);
        while self.at < list_len(&self.lists, k) {
            match self.visit(values, cnf, literal) {
                Found::Settled => {}
                found => return found,
            }
        }
        Found::Settled
    }

    // Chooses the watched literals of all clauses that have none.
    fn start_all(&mut self, values: &Table, cnf: &Cnf) -> Found
        requires { IsWatching cnf.now values.now self.old }
        ensures watching { IsWatching cnf.now values.now self.new }
        ensures says { StartsAll cnf.now values.now self.new result }
    {
        while self.started < cnf.len() {
            match self.start(values, cnf) {
                Found::Settled => {}
                found => return found,
            }
        }
        Found::Settled
    }

    // Looks at the clauses of all literals in the queue.
    fn visit_all(&mut self, values: &Table, cnf: &Cnf) -> Found
        requires watching { IsWatching cnf.now values.now self.old }
        requires all { self.old.started ≡ length cnf.now.clauses }
        ensures watching { IsWatching cnf.now values.now self.new }
        ensures says { VisitsAll cnf.now values.now self.new result }
    {
        while self.next < self.queue.len() {
            let literal = opposite(self.queue[self.next]);
            match self.visit_list(values, cnf, literal) {
                Found::Settled => {}
                found => return found,
            }
            self.next += 1;
            self.at = 0;
        }
        Found::Settled
    }

    /// Looks at clauses until one leaves a literal alone or has none left, or all are settled.
    pub fn advance(&mut self, values: &Table, cnf: &Cnf) -> Found
        requires { IsWatching cnf.now values.now self.old }
        ensures watching { IsWatching cnf.now values.now self.new }
        ensures sees { SeesAll cnf.now values.now result }
    {
        match self.start_all(values, cnf) {
            Found::Settled => self.visit_all(values, cnf),
            found => found,
        }
    }
}
