// The book of a cover.
ghost use Rattle.std.specs.Prelude.{◌≡◌, ◌↔◌, ◌<◌, ◌≤◌, ◌^◌, ◌++◌, ◌∷◌, [], All, IfOk, IfSome, IsSome, MatchOption, MatchResult, None, OnOk, IsTrue, length, map, slice_get, slice_set, vec_len};
ghost use Rattle.std.specs.List.{list_any};
ghost use Rattle.std.specs.Vec.{vec_capacity};
ghost use Rattle.poly_graph.specs.Problem.{first_crossed};
ghost use Rattle.poly_graph.specs.ProblemViews.{problem_of};
ghost use Rattle.cover_model.specs.Fits.{FitsProblem};
ghost use Rattle.cover_model.specs.State.{covers, root_state};
ghost use Rattle.cover_data.specs.Margins.{loosenings_of};
ghost use Rattle.cover_data.specs.Runs.{CanPart};
ghost use Rattle.cover_data.specs.Views.{kept_of, end_of};
ghost use Rattle.cover_book.specs.Calls.{IsLearnedOf, IsOpeningOf, IsOutcomeOf, KeepsLemma, PartsNode, StoresLemma, StoresPatch, TestsCommit, TestsQuoted};
ghost use Rattle.cover_book.specs.Limits.{IsWithinLimits};
ghost use Rattle.cover_book.specs.Model.{learned_states, lemma_count, lemma_states_in, live_node, margins_of, opening, opening_at, opening_with, raised};
ghost use Rattle.cover_book.specs.Verdict.{verdict_of, is_live, is_stuck, live_after};
ghost use Rattle.cover_book.specs.Views.{learned_of, node_of};
ghost use Rattle.cover_book.specs.Keeps.{IsBook, IsKeptLemma};
ghost use Rattle.cover_book.specs.Steps.{BookStep, QuotesKnownLemmas, IsPointKeptRefusal, MayCommit, MayBeCalled, ResultStep, most_lemmas, ends_in_branch};
ghost use Rattle.cover_book.specs.declared.calls.Call.TheVariants as call;
ghost use Rattle.cover_book.specs.declared.calls.Reply.TheVariants as reply;

use crate::calls::{Call, Reply};
use crate::ending::{Ending, ending_of};
use crate::grid::{on_grid, point_on_grid};
use crate::node::{Learned, Lines, Node};
use crate::refusal::{BookRefusal, Kids};
use crate::verdict::BookVerdict;
use cover_data::{ClosedPatch, End, KeptPatch, Lemma, Options, Point, State, StoredState};
use form_truth::{Root, root_space};
use poly_graph::{Lits, Problem};
use std::alloc::{AllocError, Global};
use std::marker::Model;
use std::mem;

/// A book has at most so many lemmas.
pub const MOST_LEMMAS: usize = 1_048_576;

/// The boxes of a cover by number, those that are open with their states and the others with what was committed to
/// them; the state in which it opened, where that is not the root state; the states of the lemmas that it opened with,
/// and the lemmas that were learned, numbered on; how many branches there are; and the point that was found.
#[derive(Drop)]
pub struct Book {
    problem: Problem,
    options: Options,
    root: Option<StoredState>,
    nodes: Vec<Node>,
    kept: Vec<StoredState>,
    lemmas: Vec<Learned>,
    branches: u32,
    point: Option<Point>,
}

impl Model for Book {
    ghost use Rattle.std.specs.Prelude.{map};
    ghost use Rattle.cover_book.specs.Model.{BookModel};

    ghost Value = { BookModel };

    ghost use Rattle.cover_book.specs.Views.{first_state, node_of, learned_of};
    ghost use Rattle.cover_book.specs.Keeps.{IsBook};

    ghost view = { λ b. record {
      problem = b.problem;
      options = b.options;
      root = first_state b.problem b.root;
      nodes = map node_of b.nodes.items;
      kept = b.kept.items;
      lemmas = map learned_of b.lemmas.items;
      branches = b.branches;
      point = b.point;
    } };

    ghost invariant = { λ b. IsBook (record {
      problem = b.problem;
      options = b.options;
      root = first_state b.problem b.root;
      nodes = map node_of b.nodes.items;
      kept = b.kept.items;
      lemmas = map learned_of b.lemmas.items;
      branches = b.branches;
      point = b.point;
    }) };
}

// The node that a book opens with.
fn opening_node(alloc: Global, problem: &Problem) -> Result<Node, AllocError>
    ensures { IfOk result (IsOpeningOf problem.now) }
{
    match root_space(alloc, problem)? {
        Root::Empty(axis) => Ok(Node::Crossed(axis)),
        Root::Space(space) => {
            let lits = Lits::new(alloc, problem.atoms().len())?;
            let state = State::new(space, lits);
            Ok(Node::Live(StoredState::new(alloc, &state, None)?))
        }
    }
}

// The state as a book that opens in it keeps it, and the nodes of that book.
fn first_nodes(alloc: Global, root: &State) -> Result<(StoredState, Vec<Node>), AllocError>
    ensures root { IfOk result (λ x. x.0 ≡ root.now) }
    ensures nodes { IfOk result (λ x. map node_of x.1.items ≡ live_node root.now ∷ []) }
{
    let first = StoredState::new(alloc, root, None)?;
    let live = StoredState::new(alloc, root, Some(&first))?;
    let mut nodes = Vec::new(alloc);
    nodes.push(Node::Live(live))?;
    Ok((first, nodes))
}

// Appends the states of these lemmas, in their order.
fn append_states(states: &mut Vec<StoredState>, lemmas: Vec<Learned>) -> Result<(), AllocError>
    ensures { OnOk result (
        states.new.items ≡ states.old.items ++ learned_states (map learned_of lemmas.items)) }
{
    let mut left = lemmas;
    left.reverse();
    while let Some(lemma) = left.pop() {
        let Learned { state, lines } = lemma;
        drop(lines);
        states.push(state)?;
    }
    Ok(())
}

// Whether a node is live.
fn any_live(nodes: &[Node]) -> bool
    ensures { result ≡ list_any is_live (map node_of nodes.now) }
{
    for node in nodes {
        if let Node::Live(_) = node {
            return true;
        }
    }
    false
}

// Whether a node is stuck.
fn any_stuck(nodes: &[Node]) -> bool
    ensures { result ≡ list_any is_stuck (map node_of nodes.now) }
{
    for node in nodes {
        if let Node::Stuck(_, _) = node {
            return true;
        }
    }
    false
}

// Whether the end is a branch.
fn parts(end: &Option<End>) -> bool
    ensures { result ≡ ends_in_branch (end_of end.now) }
{
    matches!(end, Some(End::Part(_)))
}

// The state of a live node, as it is kept.
fn kept_state(node: &Node) -> Option<&StoredState> {
    match node {
        Node::Live(state) => Some(state),
        _ => None,
    }
}

// What a patch for this node did to its state, and what its end leaves of the state that it reached.
fn outcome(alloc: Global, node: &Node, patch: KeptPatch) -> Result<(Lines, Ending), AllocError>
    requires ended { IsSome patch.end }
    requires parts { IfSome (end_of patch.end) (λ l. CanPart l patch.reached) }
    ensures { IfOk result (λ x. IsOutcomeOf patch x.0 x.1) }
{
    let ending = ending_of(alloc, &patch, kept_state(node))?;
    let KeptPatch {
        first,
        steps,
        quoted,
        end,
        reached,
    } = patch;
    drop(first);
    drop(quoted);
    drop(reached);
    match end {
        Some(end) => Ok((Lines { steps, end }, ending)),
        None => unreachable!(),
    }
}

// The state of the latest lemma, as it is kept.
fn latest_state(lemmas: &[Learned]) -> Option<&StoredState> {
    match lemmas.last() {
        Some(lemma) => Some(&lemma.state),
        None => None,
    }
}

// The first state of a patch as a lemma, with its lines. One that is kept may be like it.
fn learned(
    alloc: Global,
    patch: KeptPatch,
    like: Option<&StoredState>,
) -> Result<Learned, AllocError>
    requires { IsSome patch.end }
    ensures { IfOk result (IsLearnedOf patch) }
{
    let KeptPatch {
        first,
        steps,
        quoted,
        end,
        reached,
    } = patch;
    drop(quoted);
    drop(reached);
    let end = match end {
        Some(end) => end,
        None => unreachable!(),
    };
    let state = StoredState::new(alloc, &first, like)?;
    let lines = Lines { steps, end };
    Ok(Learned { state, lines })
}

// Writes the node at this place.
fn put(nodes: &mut Vec<Node>, place: usize, node: Node)
    requires { place < vec_len nodes.old }
    ensures items { nodes.new.items ≡ slice_set nodes.old.items place node }
    ensures len { vec_len nodes.new ≡ vec_len nodes.old }
    ensures capacity { vec_capacity nodes.new ≡ vec_capacity nodes.old }
{
    drop(mem::replace(&mut nodes[place], node));
}

// Parts the node at this place, whose two parts are appended; answers the number of the lower one. Without memory nothing
// changes.
fn part(
    nodes: &mut Vec<Node>,
    place: usize,
    lines: Lines,
    lower: StoredState,
    upper: StoredState,
) -> Result<u32, AllocError>
    requires place { place < vec_len nodes.old }
    requires count { vec_len nodes.old < 2 ^ 32 }
    ensures { PartsNode nodes.old.items place lines lower upper nodes.new.items result }
{
    nodes.reserve(2)?;
    let kid = nodes.len() as u32;
    put(nodes, place, Node::Parted(lines, kid));
    nodes.push_reserved(Node::Live(lower));
    nodes.push_reserved(Node::Live(upper));
    Ok(kid)
}

impl Book {
    /// The book with node 0 alone: live in the root state or, where the declared bounds of an axis cross, closed.
    pub fn new(alloc: Global, problem: Problem, options: Options) -> Result<Book, AllocError>
        requires { IsWithinLimits problem options }
        ensures { IfOk result (λ b. b ≡ opening problem options) }
    {
        Book::opened(alloc, problem, options, Vec::new(alloc))
    }

    /// The book with node 0 alone, as `new` has it, and with these lemmas.
    pub(crate) fn opened(
        alloc: Global,
        problem: Problem,
        options: Options,
        kept: Vec<StoredState>,
    ) -> Result<Book, AllocError>
        requires limits { IsWithinLimits problem options }
        requires few { length kept.items ≤ most_lemmas }
        requires kept { let s = loosenings_of (margins_of options) in
            All (IsKeptLemma (problem_of problem) s) kept.items }
        ensures { IfOk result (λ b. b ≡ opening_with problem options kept.items) }
    {
        let node = opening_node(alloc, &problem)?;
        let mut nodes = Vec::new(alloc);
        nodes.push(node)?;
        Ok(Book {
            problem,
            options,
            root: None,
            nodes,
            kept,
            lemmas: Vec::new(alloc),
            branches: 0,
            point: None,
        })
    }

    /// The book with node 0 alone, live in this state of the problem, which lies within the root state, and with these
    /// lemmas of the problem. The declared bounds of no axis cross.
    pub fn begin_at(
        alloc: Global,
        problem: Problem,
        options: Options,
        kept: Vec<StoredState>,
        root: State,
    ) -> Result<Book, AllocError>
        requires limits { IsWithinLimits problem options }
        requires few { length kept.items ≤ most_lemmas }
        requires kept { let s = loosenings_of (margins_of options) in
            All (IsKeptLemma (problem_of problem) s) kept.items }
        requires root { FitsProblem (problem_of problem) root }
        requires within { IsTrue (covers (root_state (problem_of problem)) root) }
        requires not_crossed { first_crossed (problem_of problem) ≡ None }
        ensures { IfOk result (λ b. b ≡ opening_at problem options kept.items root) }
    {
        let (first, nodes) = first_nodes(alloc, &root)?;
        Ok(Book {
            problem,
            options,
            root: Some(first),
            nodes,
            kept,
            lemmas: Vec::new(alloc),
            branches: 0,
            point: None,
        })
    }

    /// Goes over to version 5 of the format.
    pub fn raise(&mut self)
        ensures { self.new ≡ raised self.old }
    {
        self.options.version = 5;
    }

    /// The states of all its lemmas, by number: those that it opened with, and those that were learned.
    pub fn into_lemmas(self) -> Result<Vec<StoredState>, AllocError>
        ensures states { IfOk result (λ v. v.items ≡ lemma_states_in self) }
    {
        let Book {
            problem,
            options: _,
            root,
            nodes,
            kept,
            lemmas,
            branches: _,
            point,
        } = self;
        drop(problem);
        drop(root);
        drop(nodes);
        drop(point);
        let mut states = kept;
        append_states(&mut states, lemmas)?;
        Ok(states)
    }

    /// How many branches were committed.
    pub fn branches(&self) -> u32
        ensures branches { result ≡ self.now.branches }
        ensures book { IsBook self.now }
    {
        self.branches
    }

    /// The problem.
    pub fn problem(&self) -> &Problem
        ensures problem { result.now ≡ self.now.problem }
        ensures book { IsBook self.now }
    {
        &self.problem
    }

    /// What the search was asked for.
    pub fn options(&self) -> &Options
        ensures options { result.now ≡ self.now.options }
        ensures book { IsBook self.now }
    {
        &self.options
    }

    /// The nodes, by number.
    pub fn nodes(&self) -> &[Node]
        ensures nodes { map node_of result.now ≡ self.now.nodes }
        ensures book { IsBook self.now }
    {
        &self.nodes
    }

    /// The states of the lemmas that it opened with, by number.
    pub fn kept(&self) -> &[StoredState]
        ensures kept { result.now ≡ self.now.kept }
        ensures book { IsBook self.now }
    {
        &self.kept
    }

    /// The lemmas that were learned; their numbers follow those that it opened with.
    pub fn lemmas(&self) -> &[Learned]
        ensures lemmas { map learned_of result.now ≡ self.now.lemmas }
        ensures book { IsBook self.now }
    {
        &self.lemmas
    }

    /// The point that is kept.
    pub fn point(&self) -> Option<&Point>
        ensures { MatchOption result (self.now.point ≡ None) (λ x. self.now.point ≡ Some x.now) }
    {
        self.point.as_ref()
    }

    /// A copy of the state of a live node.
    pub fn state_of(&self, node: u32) -> Result<State, BookRefusal>
        ensures { ResultStep reply.LiveState self.now (call.StateOf node) result self.now }
    {
        match self.nodes.get(node as usize) {
            Some(Node::Live(state)) => match state.state(*self.nodes.allocator()) {
                Ok(copy) => Ok(copy),
                Err(_) => Err(BookRefusal::Memory),
            },
            _ => Err(BookRefusal::NotOpen(node)),
        }
    }

    /// How many lemmas there are: those that it opened with, and those that were learned.
    pub fn lemma_count(&self) -> u32
        ensures count { result ≡ lemma_count self.now }
        ensures few { result ≤ most_lemmas }
        ensures book { IsBook self.now }
    {
        (self.kept.len() + self.lemmas.len()) as u32
    }

    /// The state of the lemma of this number.
    pub(crate) fn lemma_state(&self, id: usize) -> Option<&StoredState>
        ensures { let there = slice_get (lemma_states_in self.now) id in
            MatchOption result (there ≡ None) (λ s. there ≡ Some s.now) }
    {
        if id < self.kept.len() {
            return Some(&self.kept[id]);
        }
        match self.lemmas.get(id - self.kept.len()) {
            Some(lemma) => Some(&lemma.state),
            None => None,
        }
    }

    /// The lemmas of this number and later ones.
    pub fn lemmas_from(&self, from: u32) -> Result<Vec<Lemma>, AllocError>
        ensures { IfOk result (λ v.
            BookStep self.now (call.LemmasFrom from) (reply.Lemmas v) self.now) }
    {
        let count = self.lemma_count() as usize;
        let first = (from as usize).min(count);
        let mut copies = Vec::new(*self.nodes.allocator());
        for id in first..count {
            let Some(lemma) = self.lemma_state(id) else {
                unreachable!();
            };
            let state = lemma.state(*self.nodes.allocator())?;
            copies.push(Lemma::new(id as u32, state))?;
        }
        Ok(copies)
    }

    // Whether the book keeps this lemma under its number.
    fn knows(&self, lemma: &Lemma) -> bool
        ensures { IsTrue result ↔ KeepsLemma self.now lemma.now }
    {
        match self.lemma_state(lemma.id() as usize) {
            Some(state) => state.is_same(lemma.state()),
            None => false,
        }
    }

    // Refuses lemmas of which one is not kept under its number.
    fn test_quoted(&self, quoted: &[Lemma]) -> Result<(), BookRefusal>
        ensures { TestsQuoted self.now quoted.now result }
    {
        for lemma in quoted {
            if !self.knows(lemma) {
                return Err(BookRefusal::UnknownLemma(lemma.id(), self.lemma_count()));
            }
        }
        Ok(())
    }

    // Refuses more where a point is kept.
    fn test_point(&self) -> Result<(), BookRefusal>
        ensures { MatchResult result (λ _. self.now.point ≡ None) (λ e.
            IsPointKeptRefusal self.now e) }
    {
        match &self.point {
            None => Ok(()),
            Some(point) => match point.try_clone(*self.nodes.allocator()) {
                Ok(copy) => Err(BookRefusal::PointKept(copy)),
                Err(_) => Err(BookRefusal::Memory),
            },
        }
    }

    // Refuses a patch for this node.
    fn test_commit(&self, node: u32, patch: &KeptPatch) -> Result<(), BookRefusal>
        ensures { TestsCommit self.now node patch.now result }
    {
        let state = match self.nodes.get(node as usize) {
            Some(Node::Live(state)) => state,
            _ => return Err(BookRefusal::NotOpen(node)),
        };
        if !state.is_same(&patch.first) {
            return match state.state(*self.nodes.allocator()) {
                Ok(copy) => Err(BookRefusal::OtherState(copy)),
                Err(_) => Err(BookRefusal::Memory),
            };
        }
        self.test_quoted(&patch.quoted)?;
        if parts(&patch.end) && self.branches >= self.options.budget {
            return Err(BookRefusal::BudgetSpent(self.branches));
        }
        self.test_point()
    }

    // Writes a patch that may be committed; without memory for what it leaves, nothing changes.
    fn store(&mut self, node: u32, patch: KeptPatch) -> Result<Kids, BookRefusal>
        requires meets { MayBeCalled self.old (call.Commit node patch) }
        requires passes { MayCommit self.old node (kept_of patch) }
        ensures { StoresPatch self.old node patch self.new result }
    {
        on_grid(&patch.reached);
        let place = node as usize;
        let (lines, ending) = match outcome(*self.nodes.allocator(), &self.nodes[place], patch) {
            Ok(outcome) => outcome,
            Err(_) => return Err(BookRefusal::Memory),
        };
        match ending {
            Ending::Closed => {
                put(&mut self.nodes, place, Node::Closed(lines));
                Ok(Kids::None)
            }
            Ending::Stuck(state) => {
                put(&mut self.nodes, place, Node::Stuck(lines, state));
                Ok(Kids::None)
            }
            Ending::Parted(lower, upper) => {
                let kid = match part(&mut self.nodes, place, lines, lower, upper) {
                    Ok(kid) => kid,
                    Err(_) => return Err(BookRefusal::Memory),
                };
                self.branches += 1;
                Ok(Kids::Two(kid, kid + 1))
            }
        }
    }

    /// Commits an ended patch to the node in whose state it begins. Refused, in this order: a node that is not live, a
    /// patch that begins elsewhere, a quoted lemma that is not the one kept under its number, a branch where the budget
    /// is used up, anything where a point is kept. A refused patch changes nothing.
    pub fn commit(&mut self, node: u32, patch: KeptPatch) -> Result<Kids, BookRefusal>
        requires { MayBeCalled self.old (call.Commit node patch) }
        ensures { ResultStep reply.Committed self.old (call.Commit node patch) result self.new }
    {
        self.test_commit(node, &patch)?;
        self.store(node, patch)
    }

    // Appends a lemma for which there is room; without memory nothing changes.
    fn keep_lemma(&mut self, patch: KeptPatch) -> Result<u32, BookRefusal>
        requires meets { MayBeCalled self.old (call.Learn (kept_of patch)) }
        requires known { QuotesKnownLemmas self.old (kept_of patch).quoted }
        requires room { lemma_count self.old < most_lemmas }
        ensures { StoresLemma self.old patch self.new result }
    {
        let id = self.lemma_count();
        on_grid(&patch.first);
        on_grid(&patch.reached);
        if self.lemmas.reserve(1).is_err() {
            return Err(BookRefusal::Memory);
        }
        let Ok(lemma) = learned(*self.nodes.allocator(), patch, latest_state(&self.lemmas)) else {
            return Err(BookRefusal::Memory);
        };
        self.lemmas.push_reserved(lemma);
        Ok(id)
    }

    /// Keeps the first state of a patch that closed it as a lemma, and answers its number. Refused, in this order: a
    /// quoted lemma that is not the one kept under its number, more than 1,048,576 lemmas. A refusal changes nothing.
    pub fn learn(&mut self, patch: ClosedPatch) -> Result<u32, BookRefusal>
        requires { MayBeCalled self.old (call.Learn patch) }
        ensures { ResultStep reply.Learned self.old (call.Learn patch) result self.new }
    {
        let kept = patch.into_kept();
        self.test_quoted(&kept.quoted)?;
        if self.lemma_count() as usize >= MOST_LEMMAS {
            return Err(BookRefusal::LemmasFull);
        }
        self.keep_lemma(kept)
    }

    /// Keeps the point that was found at a live node. Refused, in this order: a node that is not live, anything where a
    /// point is kept. A refusal changes nothing.
    pub fn found(&mut self, node: u32, point: Point) -> Result<(), BookRefusal>
        requires { MayBeCalled self.old (call.Find node point) }
        ensures { ResultStep (λ _. reply.Found) self.old (call.Find node point) result self.new }
    {
        match self.nodes.get(node as usize) {
            Some(Node::Live(_)) => {}
            _ => return Err(BookRefusal::NotOpen(node)),
        }
        self.test_point()?;
        point_on_grid(&point);
        self.point = Some(point);
        Ok(())
    }

    /// What the book says of its problem.
    pub fn verdict(&self) -> BookVerdict
        ensures { result ≡ verdict_of self.now }
    {
        if self.point.is_some() {
            BookVerdict::DeltaSat
        } else if any_live(&self.nodes) {
            if self.branches < self.options.budget {
                BookVerdict::NotYet
            } else {
                BookVerdict::UnknownBudget
            }
        } else if any_stuck(&self.nodes) {
            BookVerdict::UnknownWidth
        } else {
            BookVerdict::Unsat
        }
    }

    /// The live node of the least number that is not below this one.
    pub fn live_after(&self, from: u32) -> Option<u32>
        ensures first { result ≡ live_after self.now from }
        ensures bounded { IfSome result (λ n. n < 2 ^ 31) }
    {
        for node in from as usize..self.nodes.len() {
            if let Node::Live(_) = &self.nodes[node] {
                return Some(node as u32);
            }
        }
        None
    }

    /// Makes one call.
    pub fn run(&mut self, call: Call) -> Reply
        requires { MayBeCalled self.old call }
        ensures { BookStep self.old call result self.new }
    {
        match call {
            Call::Commit(node, patch) => match self.commit(node, patch) {
                Ok(kids) => Reply::Committed(kids),
                Err(refusal) => Reply::Refused(refusal),
            },
            Call::Learn(patch) => match self.learn(patch) {
                Ok(id) => Reply::Learned(id),
                Err(refusal) => Reply::Refused(refusal),
            },
            Call::Find(node, point) => match self.found(node, point) {
                Ok(()) => Reply::Found,
                Err(refusal) => Reply::Refused(refusal),
            },
            Call::StateOf(node) => match self.state_of(node) {
                Ok(state) => Reply::LiveState(state),
                Err(refusal) => Reply::Refused(refusal),
            },
            Call::LemmasFrom(from) => match self.lemmas_from(from) {
                Ok(lemmas) => Reply::Lemmas(lemmas),
                Err(_) => Reply::Refused(BookRefusal::Memory),
            },
        }
    }
}
