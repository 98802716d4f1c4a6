// The checker.
ghost use Rattle.std.specs.Prelude.{◌≡◌, ◌<◌, ◌-◌, ◌^◌, ℕ, [], ◌∷◌, length, map, IfOk, OnOk, Err};
ghost use Rattle.cert_read.specs.CertLine.{line as FormLine, Parsed, parsed};
ghost use Rattle.cert_read.specs.LineAnswers.{IsFault};
ghost use Rattle.cert_read.specs.Reading.{lines_ahead};
ghost use Rattle.cert_read.specs.Views.{line_of};
ghost use Rattle.cert_check.specs.Faults.{fault_at, refusal_of};
ghost use Rattle.cert_check.specs.Stages.{IsOneMore};
ghost use Rattle.cert_least.specs.Checked.{fresh_checker};
ghost use Rattle.cert_least.specs.Courses.{AreLinesTaken, Finishes, IsCourseAnswer, IsCutOff, IsFedOn, Takes};
ghost use Rattle.cert_least.specs.Judging.{aim_of, IsReady};
ghost use Rattle.cert_least.specs.Phases.{course_of, IsSoundPhase};
ghost use Rattle.cert_least.specs.Steps.{IsFaultAfter};

use crate::aim::Aim;
use crate::ending::ending;
use crate::phase::{Phase, fault_in};
use crate::phases::{MOST_LINES, phase_after};
use crate::verdict::GoalVerdict;
use cert_check::{CertFault, Checker};
use cert_read::{Line, LineFault, LineReader};
use poly_graph::Problem;
use std::alloc::{AllocError, Global};
use std::marker::Model;

/// Goes through the lines of a certificate of a script with a goal and one check once. It keeps what the checker of a
/// check keeps, and no list of the leaves that are over.
///
/// After a fault, running out of memory included, every later call answers the same fault. More than 2^64 - 2 lines,
/// which have more bytes than a certificate may have, are answered as out of memory.
#[derive(Drop)]
pub struct GoalChecker<'a> {
    aim: Aim,
    checker: Checker<'a>,
    phase: Phase,
    lines: u64,
}

impl<'a> Model for GoalChecker<'a> {
    ghost use Rattle.cert_least.specs.Checked.{GoalChecked};

    ghost Value = { GoalChecked };

    ghost use Rattle.cert_least.specs.Checking.{checked_of, IsSoundChecker};
    ghost use Rattle.std.specs.Coded.{codes};
    ghost use Rattle.cert_check.specs.FormCode.{form_code};

    ghost coded = { Prim.hlevel (codes, form_code) };

    ghost view = { checked_of };

    ghost invariant = { IsSoundChecker };
}

// The fault of a line without a form.
fn unread(fault: LineFault, line: u64) -> CertFault
    ensures { result ≡ fault_at (refusal_of fault) line }
{
    match fault {
        LineFault::BadLine => CertFault::BadLine { line },
        LineFault::BadNumber => CertFault::BadNumber { line },
        LineFault::LineTooLong => CertFault::LineTooLong { line },
        LineFault::Memory => CertFault::Memory,
    }
}

// The fault that is answered after a line without a form that follows so many others.
fn fault_after(
    _aim: &Aim,
    _checker: &Checker<'_>,
    phase: Phase,
    fault: LineFault,
    lines: u64,
) -> CertFault
    requires sound { IsSoundPhase (aim_of _aim.now) phase _checker.now }
    requires few { lines < 2 ^ 64 - 1 }
    ensures { (x : Parsed) → IsFault fault x →
        IsFaultAfter _aim.now phase _checker.now lines x result }
{
    match fault_in(phase) {
        Some(fault) => fault,
        None => unread(fault, lines + 1),
    }
}

// How many lines were taken after one more.
fn one_more(lines: u64) -> u64
    ensures few { result < 2 ^ 64 - 1 }
    ensures more { IsOneMore lines result }
{
    if lines < MOST_LINES {
        lines + 1
    } else {
        MOST_LINES
    }
}

impl<'a> GoalChecker<'a> {
    /// A checker that took no line, for the problem of the only check of a script, whose goal is the term of this atom,
    /// and where `bound` is the bound of the words. It has a copy of the problem.
    pub fn new(
        alloc: Global,
        problem: &Problem,
        goal: u32,
        bound: Option<u32>,
    ) -> Result<GoalChecker<'a>, AllocError>
        requires { goal < length problem.now.atoms }
        ensures { IfOk result (λ c. c ≡ fresh_checker problem.now goal bound) }
    {
        let aim = Aim::new(alloc, problem, goal, bound)?;
        let checker = Checker::new(alloc, problem, bound)?;
        Ok(GoalChecker {
            aim,
            checker,
            phase: Phase::Version,
            lines: 0,
        })
    }

    // The fault that is answered for good, if there is one.
    fn answer(&self) -> Result<(), CertFault>
        ensures { IsCourseAnswer self.now.course result }
    {
        match fault_in(self.phase) {
            Some(fault) => Err(fault),
            None => Ok(()),
        }
    }

    /// Takes a line, and answers its fault.
    pub fn line(&mut self, line: &Line) -> Result<(), CertFault>
        ensures { Takes self.old (FormLine (line_of line.now) ∷ []) self.new result }
    {
        self.phase = phase_after(
            &mut self.aim,
            &mut self.checker,
            self.phase,
            self.lines,
            line,
        );
        self.lines = one_more(self.lines);
        self.answer()
    }

    /// Takes a line that a reader refused, and answers its fault.
    pub fn refuse(&mut self, fault: LineFault) -> CertFault
        ensures { (x : Parsed) → IsFault fault x → Takes self.old (x ∷ []) self.new (Err result) }
    {
        let fault = fault_after(&self.aim, &self.checker, self.phase, fault, self.lines);
        self.phase = Phase::Stopped(fault);
        fault
    }

    /// Takes all whole lines that the reader holds, up to a fault, which it answers.
    pub fn take(&mut self, reader: &mut LineReader) -> Result<(), CertFault>
        ensures lines { Takes self.old (map parsed (lines_ahead reader.old)) self.new result }
        ensures drained { OnOk result (lines_ahead reader.new ≡ []) }
        ensures ended { reader.new.ended ≡ reader.old.ended }
        ensures at { AreLinesTaken self.old reader.old self.new }
        ensures fed { IsFedOn self.old reader.old self.new reader.new result }
    {
        'lines: loop {
            match reader.next_line() {
                Ok(None) => return self.answer(),
                Ok(Some(line)) => match self.line(&line) {
                    Ok(()) => {}
                    Err(fault) => return Err(fault),
                },
                Err(fault) => return Err(self.refuse(fault)),
            }
        }
    }

    /// The verdict, where the input ends here.
    pub fn finish(&mut self) -> Result<GoalVerdict, CertFault>
        ensures verdict { Finishes self.old.aim self.old.course result }
        ensures same { self.new ≡ self.old }
    {
        ending(&mut self.aim, &self.checker, self.phase, self.lines)
    }

    /// The fault, where the input goes on and no more of it is read: a certificate has at most 2^64 - 1 bytes.
    pub fn too_long(&self) -> CertFault
        ensures { IsCutOff self.now.course result }
    {
        match fault_in(self.phase) {
            Some(fault) => fault,
            None => CertFault::TooLong { line: 0 },
        }
    }
}
