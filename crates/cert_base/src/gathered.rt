// What is gathered of a certificate's lines.
ghost use Rattle.std.specs.Prelude.{◌≡◌, ◌⊎◌, ℕ, [], ◌∷◌, map, Err, IfErr, OnOk, Option};
ghost use Rattle.poly_graph.specs.ProblemViews.{problem_of};
ghost use Rattle.cover_line.specs.Views.{line_of as rule_of};
ghost use Rattle.cert_read.specs.CertLine.{line as FormLine, parsed, rule_line};
ghost use Rattle.cert_read.specs.Reading.{lines_ahead};
ghost use Rattle.cert_read.specs.Views.{line_of};
ghost use Rattle.cert_check.specs.declared.fault.CertFault.TheVariants.{Memory};
ghost use Rattle.cert_check.specs.Checked.{fresh_checker};
ghost use Rattle.cert_check.specs.Courses.{stand_in, IsUnderWay, Takes};
ghost use Rattle.cert_base.specs.Gathered.{gather, in_tree, nothing_yet, place};
ghost use Rattle.cert_base.specs.Views.{gathered_of, place_of, IsGathered};

use crate::place::{Place, place_of};
use cert_check::{CertFault, Checker};
use cert_read::{Line, LineReader};
use cover_data::State;
use cover_line::Rule;
use poly_graph::Problem;
use std::alloc::{AllocError, Global};

/// The lines of lemmas and those of the main tree, and the states that stay.
#[derive(Drop)]
pub struct Gathered {
    pub lemma_lines: Vec<Line>,
    pub main: Vec<Rule>,
    pub left: Vec<State>,
}

impl Gathered {
    /// Nothing yet.
    pub fn new(alloc: Global) -> Gathered
        ensures { gathered_of result ≡ nothing_yet }
    {
        Gathered {
            lemma_lines: Vec::new(alloc),
            main: Vec::new(alloc),
            left: Vec::new(alloc),
        }
    }

    // Puts a rule to the main tree, with the state that it leaves open or stuck, if it does.
    fn put_rule(&mut self, rule: Rule, state: Option<State>) -> Result<(), AllocError>
        ensures { OnOk result (gathered_of self.new
            ≡ gather (in_tree state) (rule_line (rule_of rule)) (gathered_of self.old)) }
    {
        if let Some(state) = state {
            self.left.push(state)?;
        }
        self.main.push(rule)?;
        Ok(())
    }

    // Puts a line where it belongs.
    fn put(&mut self, place: Place, line: Line) -> Result<(), AllocError>
        ensures { OnOk result (gathered_of self.new
            ≡ gather (place_of place) (line_of line) (gathered_of self.old)) }
    {
        match place {
            Place::Nowhere => Ok(()),
            Place::Lemmas => Ok(self.lemma_lines.push(line)?),
            Place::Tree(state) => match line {
                Line::Rule(rule) => self.put_rule(rule, state),
                _ => Ok(()),
            },
        }
    }

    // Gathers one line, which the checker takes. The error is its fault, or out of memory.
    fn line(
        &mut self,
        alloc: Global,
        problem: &Problem,
        checker: &mut Checker<'_>,
        line: Line,
    ) -> Result<(), CertFault>
        ensures ok { OnOk result (Takes checker.old (FormLine (line_of line) ∷ [])
            checker.new result) }
        ensures fault { IfErr result (λ f. (f ≡ Memory)
            ⊎ Takes checker.old (FormLine (line_of line) ∷ []) checker.new (Err f)) }
        ensures gathered { let l = line_of line in let p = problem_of problem.now in
            OnOk result (gathered_of self.new
            ≡ gather (place p (stand_in checker.old.course) l) l (gathered_of self.old)) }
    {
        let place = place_of(alloc, problem, checker.stand(), &line)?;
        checker.line(&line)?;
        Ok(self.put(place, line)?)
    }

    /// Gathers all lines that the reader holds, which the checker takes, up to a fault. The error is that fault, or out
    /// of memory.
    pub fn take(
        &mut self,
        alloc: Global,
        problem: &Problem,
        checker: &mut Checker<'_>,
        reader: &mut LineReader,
    ) -> Result<(), CertFault>
        requires { IsUnderWay checker.old.course }
        ensures ok { OnOk result (Takes checker.old (map parsed (lines_ahead reader.old))
            checker.new result) }
        ensures fault { IfErr result (λ f. (f ≡ Memory)
            ⊎ Takes checker.old (map parsed (lines_ahead reader.old)) checker.new (Err f)) }
        ensures gathered { (b : Option ℕ) → checker.old ≡ fresh_checker problem.now b →
            gathered_of self.old ≡ nothing_yet →
            OnOk result (IsGathered (problem_of problem.now) b
            (map parsed (lines_ahead reader.old)) checker.new.course (gathered_of self.new)) }
    {
        'lines: loop {
            match reader.next_line() {
                Ok(None) => return Ok(()),
                Ok(Some(line)) => match self.line(alloc, problem, checker, line) {
                    Ok(()) => {}
                    Err(fault) => return Err(fault),
                },
                Err(fault) => return Err(checker.refuse(fault)),
            }
        }
    }
}
