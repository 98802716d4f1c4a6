// Lemmas as they are written.
ghost use Rattle.std.specs.Prelude.{◌≡◌, true, IsTrue};
ghost use Rattle.cert_model.specs.Due.{all_below, apart};

use ival::Space;

/// The state of a lemma of a problem of so many atoms: its space, and its atoms marked yes and marked no.
#[derive(Drop)]
pub struct Lemma {
    pub space: Space,
    pub atoms: usize,
    pub yes: Vec<u32>,
    pub no: Vec<u32>,
    pub ghost yes_below: { IsTrue (all_below atoms yes.items) },
    pub ghost no_below: { IsTrue (all_below atoms no.items) },
    pub ghost apart: { apart yes.items no.items ≡ true },
}
