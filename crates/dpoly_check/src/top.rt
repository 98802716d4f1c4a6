// The run of the whole checker.
ghost use Rattle.std.specs.Prelude.{◌≡◌, None};
ghost use Rattle.check_run.specs.Run.{CertIsRead, HasCause, SameIn, ScriptIsRead, StatusIsDue, StatusIsShown};
ghost use Rattle.check_run.specs.Headline.{AnswersAreTrue, DeltaSatIsTrue, RefusalIsTrue, UnsatIsTrue};
ghost use Rattle.dpoly_check.specs.Checker.{command_in, run};

use check_run::{Status, run_check, say};
use command_line::{Refused, read_checker_words};
use desk::Desk;
use problem_build::Reader;
use std::alloc::Global;

/// Runs the whole checker: the words of its call, of which the first is its name, over the ports of a desk.
///
/// `SCRIPT CERT` reads a script and a certificate, and answers whether the certificate is accepted, and what it shows of
/// each check of the script. What is promised is what `dpoly` promises of `check`, by the same definitions.
pub fn run_top<D: Desk>(alloc: Global, words: &[String], desk: &mut D) -> Status
    // Whatever the desk shows: a status has its cause, refused words read nothing, and a script, and a certificate that
    // is confirmed, are read to their ends.
    ensures cause { HasCause (run words.now (D.sight desk.old) (D.sight desk.new) result) }
    ensures unread { command_in words.now ≡ None → SameIn (D.sight desk.old) (D.sight desk.new) }
    ensures script { ScriptIsRead (run words.now (D.sight desk.old) (D.sight desk.new) result) }
    ensures cert { CertIsRead (run words.now (D.sight desk.old) (D.sight desk.new) result) }

    // Of what the desk shows: each status shows what its row says, and where neither side fails it is the one that is
    // due, or there was no memory.
    ensures shows { StatusIsShown (run words.now (D.sight desk.old) (D.sight desk.new) result) }
    ensures complete { StatusIsDue (run words.now (D.sight desk.old) (D.sight desk.new) result) }

    // What is confirmed of each check of the script is true of what is in force at it; of a script with one check the
    // text alone tells what it says. A certificate that is refused has the fault that is answered.
    ensures answers { AnswersAreTrue (run words.now (D.sight desk.old) (D.sight desk.new) result) }
    ensures unsat { UnsatIsTrue (run words.now (D.sight desk.old) (D.sight desk.new) result) }
    ensures delta_sat { DeltaSatIsTrue
        (run words.now (D.sight desk.old) (D.sight desk.new) result) }
    ensures refused { RefusalIsTrue (run words.now (D.sight desk.old) (D.sight desk.new) result) }
{
    match read_checker_words(alloc, words) {
        Ok(asked) => run_check(&Reader, alloc, desk, asked),
        Err(Refused::Usage) => say(desk, Status::Usage, b"usage fault\n"),
        Err(Refused::Memory) => Status::NoMemory,
    }
}
