// Scripts whose names and sorts are checked.
ghost use Rattle.std.specs.Prelude.{◌≡◌, None};
ghost use Rattle.smt_script.specs.Views.{commands_in, steps_in};
ghost use Rattle.sort_check.specs.Levels.{course_fault};
ghost use Rattle.sort_check.specs.Sorts.{sort_fault};

use smt_script::{Course, Script};

/// The steps of a script whose names and sorts are without a fault.
#[derive(Debug, Drop)]
pub struct TypedCourse<'a> {
    pub course: Course<'a>,
    pub ghost sorted: { course_fault (steps_in course) ≡ None },
}

/// A script with one check, whose names and sorts are without a fault.
#[derive(Debug, Drop)]
pub struct Typed<'a> {
    pub script: Script<'a>,
    pub ghost sorted: { sort_fault (commands_in script) ≡ None },
}
