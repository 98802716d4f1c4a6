// The writing of assertions, one after the other.
ghost use Rattle.std.specs.Prelude.{◌≡◌, ◌∷◌, [], List, IfErr, IfOk, OnOk, length, map};
ghost use Rattle.root_rewriting.specs.Drafts.{AreDraftsBelow, IsContentBelow, draft_command};
ghost use Rattle.root_rewriting.specs.Opened.{CanWrite};
ghost use Rattle.root_rewriting.specs.Placing.{InWriting, IsTooLarge};
ghost use Rattle.root_rewriting.specs.Spelling.{AreNamed, IsSpelling};
ghost use Rattle.root_rewriting.specs.Nodes.{trees_in};
ghost use Rattle.script_model.specs.Script as script;
ghost use Rattle.script_roots.specs.Fresh.{Table};
ghost use Rattle.script_roots.specs.Refused.{most_tokens, tokens_from};
ghost use Rattle.script_roots.specs.Reached.{first_beyond};

use crate::drafts::Draft;
use crate::expressions::write_content;
use crate::placed::Placed;
use crate::spelling::{MOST_TOKENS, Spelling, Stop};
use script_fault::{FaultKind, Limit, Place, ReadError};
use smt_sexp::Writer;
use std::alloc::Global;

/// What was written so far.
#[derive(Drop)]
pub(crate) struct Writing {
    pub(crate) writer: Writer,
    pub(crate) placed: Vec<Placed>,
}

// More tokens than may be, at an assertion.
fn too_long(place: Place) -> ReadError
    ensures { result ≡ ReadError.Fault (record {
      at = place;
      kind = FaultKind.TooMany Limit.Size;
    }) }
{
    ReadError::at(place, FaultKind::TooMany(Limit::Size))
}

impl Writing {
    // Nothing is written yet.
    fn new(alloc: Global) -> Self
        ensures { (all : List script.Command) → InWriting result.writer result.placed.items all all }
    {
        Writing {
            writer: Writer::new(alloc),
            placed: Vec::new(alloc),
        }
    }

    // Writes an assertion.
    fn write(
        &mut self,
        alloc: Global,
        spelling: &Spelling<'_, '_>,
        draft: Draft,
    ) -> Result<(), ReadError>
        requires spelling { IsSpelling spelling.now }
        requires named { (table : Table) × AreNamed table spelling.now }
        requires can { CanWrite self.old.writer 0 }
        requires below { IsContentBelow (length spelling.now.trees.now)
            (length spelling.now.names.now) draft.content }
        ensures writes { (table : Table) (all left : List script.Command) →
            AreNamed table spelling.now →
            InWriting self.old.writer self.old.placed.items all
            (draft_command spelling.now.names.now table (trees_in spelling.now.trees.now) draft
            ∷ left) →
            OnOk result (InWriting self.new.writer self.new.placed.items all left) }
        ensures refuses { (table : Table) (all left : List script.Command) →
            AreNamed table spelling.now →
            InWriting self.old.writer self.old.placed.items all
            (draft_command spelling.now.names.now table (trees_in spelling.now.trees.now) draft
            ∷ left) →
            IfErr result (λ e. IsTooLarge e (first_beyond most_tokens 0 (tokens_from all))) }
    {
        let at = self.writer.len();
        match write_content(
            alloc,
            spelling,
            &mut self.writer,
            draft.place,
            draft.content,
        ) {
            Ok(()) => {}
            Err(Stop::TooLong) => return Err(too_long(draft.place)),
            Err(Stop::Memory) => return Err(ReadError::Memory),
        }
        if self.writer.len() > MOST_TOKENS {
            return Err(too_long(draft.place));
        }
        self.placed.push(Placed {
            place: draft.place,
            is_goal: draft.is_goal,
            at,
        })?;
        Ok(())
    }
}

/// Writes assertions.
///
/// # Errors
///
/// Too many tokens, at the first assertion with which there are more than `MOST_TOKENS`.
pub(crate) fn write_all(
    alloc: Global,
    spelling: &Spelling<'_, '_>,
    drafts: &[Draft],
) -> Result<Writing, ReadError>
    requires spelling { IsSpelling spelling.now }
    requires named { (table : Table) × AreNamed table spelling.now }
    requires below { AreDraftsBelow (length spelling.now.trees.now)
        (length spelling.now.names.now) drafts.now }
    ensures writes { (table : Table) → AreNamed table spelling.now →
        IfOk result (λ writing. InWriting writing.writer writing.placed.items
        (map (draft_command spelling.now.names.now table (trees_in spelling.now.trees.now))
        drafts.now) []) }
    ensures refuses { (table : Table) → AreNamed table spelling.now →
        IfErr result (λ e. IsTooLarge e (first_beyond most_tokens 0 (tokens_from
        (map (draft_command spelling.now.names.now table (trees_in spelling.now.trees.now))
        drafts.now)))) }
{
    let mut writing = Writing::new(alloc);
    let mut rest = drafts;
    while let [draft, later @ ..] = rest {
        writing.write(alloc, spelling, *draft)?;
        rest = later;
    }
    Ok(writing)
}
