// Parting a state.
ghost use Rattle.std.specs.Prelude.{◌≡◌, ◌<◌, ℕ, length, IfOk, IsTrue, true, false, None};
ghost use Rattle.cover_model.specs.Honest.{is_small};
ghost use Rattle.box_worker.specs.Attempts.{Continues, HasNoOpenAxis, IsDue};
ghost use Rattle.box_worker.specs.Ended.{is_left};

use crate::attempt;
use crate::facts::{run_is_lawful, space_is_upright};
use cover_rule::Patch;

// Parts the first Bool axis that is not decided.
fn flip_any(patch: &mut Patch) -> bool
    requires due { IsDue patch.old }
    ensures continues { Continues patch.old patch.new }
    ensures parted { result ≡ true → IsTrue (is_left patch.new.kept.end) }
    ensures same { result ≡ false → patch.new ≡ patch.old }
    ensures none { result ≡ false → HasNoOpenAxis patch.old }
{
    let problem = patch.problem();
    for axis in 0..problem.axes().len() {
        if attempt::flip(patch, axis as u32) {
            return true;
        }
    }
    false
}

// Ends the patch by the first stuck atom, where nothing is left to part.
fn stick(patch: &mut Patch)
    requires due { IsDue patch.old }
    requires small { IsTrue (is_small patch.old.margins.least_bits patch.old.kept.reached.space) }
    ensures continues { Continues patch.old patch.new }
    ensures stuck { IsTrue (is_left patch.new.kept.end) }
{
    space_is_upright(patch);
    let problem = patch.problem();
    for j in 0..problem.atoms().len() {
        if attempt::stuck(patch, j as u32) {
            return;
        }
    }
    unreachable!()
}

/// Parts the state, or finds it stuck, where nothing else is left to do.
pub fn part(patch: &mut Patch)
    requires due { IsDue patch.old }
    ensures continues { Continues patch.old patch.new }
    ensures left { IsTrue (is_left patch.new.kept.end) }
{
    run_is_lawful(patch);
    if attempt::cut_widest(patch) {
        return;
    }
    if flip_any(patch) {
        return;
    }
    stick(patch);
}
