// The numbers that lemmas have in the joined certificate.
ghost use Rattle.std.specs.Prelude.{◌≡◌, ◌≢◌, ◌⊎◌, ◌++◌, ◌∷◌, ◌<◌, ◌≤◌, [], ℕ, List, true, false, None, Some, Ok, IfOk, OnOk, length, map, slice_get};
ghost use Rattle.cert_read.specs.CertLine.{CertLine};
ghost use Rattle.cert_read.specs.LineText.{line_text};
ghost use Rattle.cert_joined.specs.Covers.{Cover, AreTextsOf, IsTextOf};
ghost use Rattle.cert_join.specs.Ahead.{AreBefore};
ghost use Rattle.cert_join.specs.Spot.{Spot, IsBefore, IsMark, line_in, rewound};
ghost use Rattle.cert_join.specs.Written.{behind_header};
ghost use Rattle.cert_join.specs.Numbered.{is_tree, line_kind, place_of, EndsPart, IsKnown, IsNumbered, IsNumbering, IsReadingPart, Notes, ReadsLemmas, ReadsPart, TakesLine, TakesNext, TakesState};

use crate::cursor::{Cursor, Mark};
use crate::heads::append_line;
use crate::joiner::Step;
use crate::line::first_word;
use crate::stop::Unjoined;
use std::alloc::{AllocError, Global};
use std::collections::HashMap;
use std::hash::{FoldHasher, Hasher};
use std::mem;

// A certificate has at most so many lemmas.
const MOST_LEMMAS: u32 = 1_048_576;

/// What a line between the header and the main tree is.
#[derive(Clone, Copy, Debug, PartialEq, Eq)]
pub enum Kind {
    /// The first one of a lemma.
    Lemma,
    /// The last one of its state.
    No,
    /// The one before the main tree.
    Tree,
    Other,
}

impl Kind {
    pub fn is_tree(self) -> bool
        ensures { result ≡ is_tree self }
    {
        matches!(self, Kind::Tree)
    }
}

/// Whether the cursor's line stands behind all lemmas, or there is none.
pub fn is_behind(cursor: &Cursor) -> bool
    ensures { (l : CertLine) → line_in cursor.now ≡ Some (line_text l) →
        result ≡ is_tree (line_kind l) }
{
    match cursor.line() {
        Some(line) => kind_of(line).is_tree(),
        None => true,
    }
}

// By its first word.
fn kind_of(line: &[u8]) -> Kind
    ensures { (l : CertLine) → line.now ≡ line_text l → result ≡ line_kind l }
{
    let word = first_word(line);
    if word == b"lemma".as_slice() {
        Kind::Lemma
    } else if word == b"no".as_slice() {
        Kind::No
    } else if word == b"tree".as_slice() {
        Kind::Tree
    } else {
        Kind::Other
    }
}

// The states that were read, each once and with its number.
#[derive(Drop)]
struct Known {
    map: HashMap<Vec<u8>, u32>,
    count: u32,
}

impl Known {
    fn new(alloc: Global) -> Self
        ensures { IsKnown result [] }
    {
        Known {
            map: HashMap::new(alloc),
            count: 0,
        }
    }

    // The number of this state.
    fn find(&self, state: &Vec<u8>) -> Option<u32>
        ensures { (texts : List (List ℕ)) → IsKnown self.now texts →
            result ≡ place_of state.now.items texts }
    {
        self.map.get(state).copied()
    }

    // Gives a new state the next number.
    fn add(&mut self, alloc: Global, state: &[u8]) -> Result<u32, AllocError>
        ensures { (texts : List (List ℕ)) → IsKnown self.old texts →
            place_of state.now texts ≡ None → self.old.count ≤ 1048576 →
            IfOk result (λ n. (n ≡ length texts)
            × IsKnown self.new (texts ++ (state.now ∷ []))) }
    {
        let number = self.count;
        let key = match Vec::from_slice(alloc, state) {
            Ok(key) => key,
            Err(error) => return Err(error),
        };
        match self.map.insert(key, number) {
            Ok(_) => {}
            Err(_) => return Err(AllocError),
        }
        self.count = number.saturating_add(1);
        Ok(number)
    }
}

// Hashes of the lines of trees, for each lemma.
#[derive(Drop)]
struct Hashes {
    trees: Vec<u64>,
    // The lemma whose tree is read, and whether it is a new one.
    lemma: Option<(u32, bool)>,
    tree: FoldHasher,
    // Whether a lemma that stands twice has two trees.
    dropped: bool,
}

// Whether the first tree of the lemma with this number has another hash.
fn is_other(trees: &[u64], number: u32, tree: u64) -> bool
    ensures same { result ≡ false → slice_get trees.now number ≡ Some tree }
    ensures other { result ≡ true → slice_get trees.now number ≢ Some tree }
{
    match trees.get(number as usize) {
        Some(first) => *first != tree,
        None => true,
    }
}

impl Hashes {
    fn new(alloc: Global) -> Self {
        Hashes {
            trees: Vec::new(alloc),
            lemma: None,
            tree: FoldHasher::default(),
            dropped: false,
        }
    }

    // The tree of this lemma comes next.
    fn begin(&mut self, number: u32, is_new: bool) {
        self.lemma = Some((number, is_new));
    }

    // Takes a line of the tree.
    fn take(&mut self, line: &[u8]) {
        self.tree.write(line);
        self.tree.write(b"\n");
    }

    // The tree of the lemma has this hash: that of a new one is kept, and another one is compared with its first.
    fn note(&mut self, tree: u64) -> Result<(), AllocError>
        ensures { OnOk result (Notes tree self.old self.new) }
    {
        match self.lemma {
            Some((_, true)) => match self.trees.push(tree) {
                Ok(()) => Ok(()),
                Err(_) => Err(AllocError),
            },
            Some((number, false)) => {
                self.dropped = self.dropped || is_other(&self.trees, number, tree);
                Ok(())
            }
            None => Ok(()),
        }
    }

    // The tree of a lemma was read whole.
    fn end(&mut self) -> Result<(), AllocError> {
        let tree = self.tree.finish();
        match self.note(tree) {
            Ok(()) => {}
            Err(error) => return Err(error),
        }
        self.lemma = None;
        self.tree = FoldHasher::default();
        Ok(())
    }
}

/// Goes through the lemmas of each certificate once, and numbers them: equal states have one number, in the order in
/// which they come.
#[derive(Drop)]
pub struct Numbering {
    alloc: Global,
    part: usize,
    // Where the lemmas of the certificate begin, once it is begun.
    mark: Option<Mark>,
    is_in_state: bool,
    // The lines of the lemma's state.
    state: Vec<u8>,
    known: Known,
    // The numbers of the certificate's lemmas so far.
    own: Vec<u32>,
    hashes: Hashes,
    /// Of each certificate that was gone through, the number of each of its lemmas.
    pub numbers: Vec<Vec<u32>>,
    /// How many lemmas these have, equal ones once.
    pub count: u32,
    /// Whether one of them that stands twice has two trees, or a line was gone through that no accepted certificate has.
    pub dropped: bool,
}

// Whether a certificate says that it has so many lemmas.
fn has_count(counts: &[u32], part: usize, many: usize) -> bool {
    match counts.get(part) {
        Some(count) => *count as usize == many,
        None => false,
    }
}

// Passes a line of this kind; behind the lemmas it goes back to their beginning.
fn move_on(cursor: &mut Cursor, kind: Kind, mark: Mark)
    ensures back { kind ≡ Kind.Tree → cursor.new ≡ rewound mark }
    ensures on { kind ≢ Kind.Tree → (cert l : List ℕ) (ls : List (List ℕ)) →
        IsBefore cert (l ∷ ls) cursor.old → line_in cursor.old ≡ Some l →
        IsBefore cert ls cursor.new }
{
    match kind {
        Kind::Tree => cursor.rewind(mark),
        _ => cursor.pass(),
    }
}

impl Numbering {
    pub fn new(alloc: Global) -> Self
        ensures { (certs : List (List ℕ)) (covers : List Cover) (spots : List Spot) →
            AreBefore certs (map behind_header covers) spots →
            IsNumbering certs covers result spots }
    {
        Numbering {
            alloc,
            part: 0,
            mark: None,
            is_in_state: false,
            state: Vec::new(alloc),
            known: Known::new(alloc),
            own: Vec::new(alloc),
            hashes: Hashes::new(alloc),
            numbers: Vec::new(alloc),
            count: 0,
            dropped: false,
        }
    }

    // The number of the lemma whose state was read, and whether it is a new one.
    fn numbered(&mut self) -> Result<(u32, bool), AllocError>
        ensures same { self.new ≡ record self.old { known = self.new.known } }
        ensures number { (texts : List (List ℕ)) → IsKnown self.old.known texts →
            self.old.known.count ≤ 1048576 →
            IfOk result (λ x. (after : List (List ℕ))
            × IsNumbered texts self.old.state.items x.0 after × IsKnown self.new.known after) }
    {
        match self.known.find(&self.state) {
            Some(number) => Ok((number, false)),
            None => match self.known.add(self.alloc, &self.state) {
                Ok(number) => Ok((number, true)),
                Err(error) => Err(error),
            },
        }
    }

    // The state of a lemma was read whole.
    fn end_state(&mut self) -> Result<(), AllocError>
        ensures { OnOk result (TakesState self.old.state.items self.old self.new) }
    {
        let (number, is_new) = match self.numbered() {
            Ok(lemma) => lemma,
            Err(error) => return Err(error),
        };
        self.is_in_state = false;
        self.hashes.begin(number, is_new);
        match self.own.push(number) {
            Ok(()) => Ok(()),
            Err(_) => Err(AllocError),
        }
    }

    // Takes a line of a state.
    fn take_state(&mut self, kind: Kind, line: &[u8]) -> Result<(), AllocError>
        requires inside { self.old.is_in_state ≡ true }
        requires later { kind ≢ Kind.Lemma }
        ensures { OnOk result (TakesLine kind line.now self.old self.new) }
    {
        match append_line(&mut self.state, line) {
            Ok(()) => {}
            Err(error) => return Err(error),
        }
        match kind {
            Kind::No => self.end_state(),
            _ => Ok(()),
        }
    }

    // Takes a line of a lemma.
    fn take(&mut self, kind: Kind, line: &[u8]) -> Result<(), AllocError>
        ensures takes { OnOk result (TakesLine kind line.now self.old self.new) }
        ensures odd { kind ≢ Kind.Lemma → self.old.is_in_state ≡ false →
            length self.old.own.items ≡ 0 → self.new.dropped ≡ true }
    {
        match kind {
            Kind::Lemma => {
                match self.hashes.end() {
                    Ok(()) => {}
                    Err(error) => return Err(error),
                }
                self.is_in_state = true;
                self.state.clear();
                Ok(())
            }
            kind if self.is_in_state => self.take_state(kind, line),
            _ => {
                // Before the first lemma none but one that begins a lemma may stand.
                self.dropped = self.dropped || self.own.is_empty();
                self.hashes.take(line);
                Ok(())
            }
        }
    }

    // Where the certificate's lemmas begin.
    fn begun(&mut self, cursor: &Cursor) -> Mark
        ensures same { self.new ≡ record self.old { mark = Some result } }
        ensures mark { (self.old.mark ≡ Some result)
            ⊎ ((self.old.mark ≡ None) × IsMark cursor.now result) }
    {
        match self.mark {
            Some(mark) => mark,
            None => {
                let mark = cursor.mark();
                self.mark = Some(mark);
                mark
            }
        }
    }

    // The certificate's lemmas were read.
    fn end_part(&mut self, counts: &[u32]) -> Result<(), AllocError>
        requires { self.old.part < usize.MAX }
        ensures { OnOk result (EndsPart self.old self.new) }
    {
        match self.hashes.end() {
            Ok(()) => {}
            Err(error) => return Err(error),
        }
        let is_whole = has_count(counts, self.part, self.own.len());
        let own = mem::replace(&mut self.own, Vec::new(self.alloc));
        match self.numbers.push(own) {
            Ok(()) => {}
            Err(_) => return Err(AllocError),
        }
        self.count = self.known.count;
        self.dropped = self.dropped || self.hashes.dropped || !is_whole;
        self.mark = None;
        self.part += 1;
        Ok(())
    }

    // Takes the line that the cursor has, and says what it is. Where there is none the certificate's lemmas end as well.
    fn take_next(&mut self, cursor: &Cursor, counts: &[u32]) -> Result<Kind, Unjoined>
        requires { self.old.part < usize.MAX }
        ensures { (l : CertLine) → line_in cursor.now ≡ Some (line_text l) →
            TakesNext (line_kind l) (line_text l) self.old result self.new }
    {
        let Some(line) = cursor.line() else {
            return match self.end_part(counts) {
                Ok(()) => Ok(Kind::Tree),
                Err(_) => Err(Unjoined::Memory),
            };
        };
        let kind = kind_of(line);
        if kind == Kind::Tree {
            return match self.end_part(counts) {
                Ok(()) => Ok(kind),
                Err(_) => Err(Unjoined::Memory),
            };
        }
        match self.take(kind, line) {
            Ok(()) if self.known.count <= MOST_LEMMAS => Ok(kind),
            Ok(()) => Err(Unjoined::Crowded),
            Err(_) => Err(Unjoined::Memory),
        }
    }

    // Reads one more line of this certificate.
    fn read(&mut self, cursor: &mut Cursor, counts: &[u32]) -> Result<Step, Unjoined>
        requires { self.old.part < usize.MAX }
        ensures { (cert : List ℕ) (before : List (List ℕ)) (c : Cover) → IsTextOf c cert →
            IsReadingPart cert before c self.old cursor.old →
            ReadsPart cert before c self.old result self.new cursor.new }
    {
        let mark = self.begun(cursor);
        if !cursor.is_ready() {
            return Ok(Step::Read(self.part));
        }
        match self.take_next(cursor, counts) {
            Ok(kind) => move_on(cursor, kind, mark),
            Err(unjoined) => return Err(unjoined),
        }
        Ok(Step::On)
    }

    /// Reads one more line, where `counts` says of each certificate how many lemmas it has. Where the lemmas of one are
    /// read it goes back to their beginning.
    pub fn step(&mut self, cursors: &mut [Cursor], counts: &[u32]) -> Result<Step, Unjoined>
        ensures { (certs : List (List ℕ)) (covers : List Cover) → AreTextsOf covers certs →
            IsNumbering certs covers self.old cursors.old →
            ReadsLemmas certs covers result self.new cursors.new }
    {
        let part = self.part;
        if part >= cursors.len() {
            return Ok(Step::Over);
        }
        self.read(&mut cursors[part], counts)
    }
}
