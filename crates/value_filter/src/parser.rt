ghost use Rattle.std.specs.Prelude.{◌≡◌, ◌+◌, ◌<◌, ◌∷◌, Some, OnOk, IfOk, IfErr};
ghost use Rattle.value_filter.specs.Reading.{initial, completed, joined, awaiting, opening, opened, closed, begun, compared, numbered};
ghost use Rattle.value_filter.specs.Reading.{continued, taken, finished, Refuses};

use crate::atoms::{Atom, Comparison, Subject};
use crate::faults::FilterFault;
use crate::frames::{Frame, Frames};
use crate::steps::Step;
use crate::tokens::Token;
use std::alloc::{AllocError, Global};
use std::marker::Model;

/// What may stand next.
#[derive(Clone, Copy)]
pub(crate) enum Phase {
    AwaitsOperand,
    AwaitsSign(Subject),
    AwaitsNumber(Subject, Comparison),
    HasOperand,
}

/// Takes the tokens of a filter one by one, and writes its steps.
#[derive(Drop)]
pub(crate) struct Parser {
    phase: Phase,
    frames: Frames,
    steps: Vec<Step>,
}

impl Model for Parser {
    ghost use Rattle.value_filter.specs.Reading.{State};

    ghost Value = { State };

    ghost view = { λ parser. record { phase = parser.phase; frames = parser.frames; steps = parser.steps.items } };
}

impl Parser {
    /// Nothing is read.
    pub(crate) fn new(alloc: Global) -> Parser
        ensures { result ≡ initial }
    {
        Parser {
            phase: Phase::AwaitsOperand,
            frames: Frames::new(alloc),
            steps: Vec::new(alloc),
        }
    }

    /// Takes the next token, whose offset is `at`. `At` comes exactly where it can't stand there.
    #[tactic(auto, unfolding(crate::specs::Reading::taken))]
    pub(crate) fn take(&mut self, token: Token, at: u32) -> Result<(), FilterFault>
        ensures ok { OnOk result (taken token self.old ≡ Some self.new) }
        ensures err { IfErr result (Refuses (taken token self.old) at) }
    {
        match self.phase {
            Phase::AwaitsOperand => self.begin(token, at),
            Phase::AwaitsSign(subject) => self.compare(subject, token, at),
            Phase::AwaitsNumber(subject, comparison) => self.test(subject, comparison, token, at),
            Phase::HasOperand => self.go_on(token, at),
        }
    }

    /// Takes a token where an operand is awaited.
    #[tactic(auto, unfolding(crate::specs::Reading::begun))]
    fn begin(&mut self, token: Token, at: u32) -> Result<(), FilterFault>
        ensures ok { OnOk result (begun token self.old ≡ Some self.new) }
        ensures err { IfErr result (Refuses (begun token self.old) at) }
    {
        match token {
            Token::Subject(subject) => {
                self.phase = Phase::AwaitsSign(subject);
                Ok(())
            }
            Token::NotWord => self.open(Frame::Negation, at),
            Token::Open => self.open(Frame::Parenthesis, at),
            _ => Err(FilterFault::At { at }),
        }
    }

    /// Opens a `not` or `(`.
    #[tactic(auto, unfolding(crate::specs::Reading::opening))]
    fn open(&mut self, frame: Frame, at: u32) -> Result<(), FilterFault>
        requires { opened (frame ∷ self.old.frames) ≡ opened self.old.frames + 1 }
        ensures ok { OnOk result (opening frame self.old ≡ Some self.new) }
        ensures err { IfErr result (Refuses (opening frame self.old) at) }
    {
        if !self.frames.has_room() {
            return Err(FilterFault::At { at });
        }
        self.frames.push_open(frame)?;
        self.phase = Phase::AwaitsOperand;
        Ok(())
    }

    /// Takes the sign of a comparison.
    #[tactic(auto, unfolding(crate::specs::Reading::compared))]
    fn compare(&mut self, subject: Subject, token: Token, at: u32) -> Result<(), FilterFault>
        ensures ok { OnOk result (compared subject token self.old ≡ Some self.new) }
        ensures err { IfErr result (Refuses (compared subject token self.old) at) }
    {
        match token {
            Token::Sign(comparison) => {
                self.phase = Phase::AwaitsNumber(subject, comparison);
                Ok(())
            }
            _ => Err(FilterFault::At { at }),
        }
    }

    /// Takes the number of a comparison.
    #[tactic(auto, unfolding(crate::specs::Reading::numbered))]
    fn test(
        &mut self,
        subject: Subject,
        comparison: Comparison,
        token: Token,
        at: u32,
    ) -> Result<(), FilterFault>
        ensures ok { OnOk result (numbered subject comparison token self.old ≡ Some self.new) }
        ensures err { IfErr result (Refuses (numbered subject comparison token self.old) at) }
    {
        match token {
            Token::Number(number) => {
                self.steps.push(Step::Test(Atom {
                    subject,
                    comparison,
                    number,
                }))?;
                self.complete()?;
                Ok(())
            }
            _ => Err(FilterFault::At { at }),
        }
    }

    /// Takes a token behind an operand.
    #[tactic(auto, unfolding(crate::specs::Reading::continued))]
    fn go_on(&mut self, token: Token, at: u32) -> Result<(), FilterFault>
        ensures ok { OnOk result (continued token self.old ≡ Some self.new) }
        ensures err { IfErr result (Refuses (continued token self.old) at) }
    {
        match token {
            Token::AndWord => {
                self.side(Frame::Conjunct)?;
                Ok(())
            }
            Token::OrWord => {
                self.join()?;
                self.side(Frame::Disjunct)?;
                Ok(())
            }
            Token::Close => {
                self.join()?;
                self.close(at)
            }
            _ => Err(FilterFault::At { at }),
        }
    }

    /// Opens the left side of an `or` or `and`.
    fn side(&mut self, side: Frame) -> Result<(), AllocError>
        requires { opened (side ∷ self.old.frames) ≡ opened self.old.frames }
        ensures { OnOk result (self.new ≡ awaiting side self.old) }
    {
        self.frames.push_side(side)?;
        self.phase = Phase::AwaitsOperand;
        Ok(())
    }

    /// Closes a `(`.
    #[tactic(auto, unfolding(crate::specs::Reading::closed))]
    fn close(&mut self, at: u32) -> Result<(), FilterFault>
        ensures ok { OnOk result (closed self.old.frames self.old.steps ≡ Some self.new) }
        ensures err { IfErr result (Refuses (closed self.old.frames self.old.steps) at) }
    {
        if !self.frames.close(Frame::Parenthesis) {
            return Err(FilterFault::At { at });
        }
        self.complete()?;
        Ok(())
    }

    /// Closes the `not`s before an operand, and then the `and` before these.
    fn complete(&mut self) -> Result<(), AllocError>
        ensures { OnOk result (self.new ≡ completed self.old.frames self.old.steps) }
    {
        'negations: while self.frames.close(Frame::Negation) {
            self.steps.push(Step::Not)?;
        }
        if self.frames.close(Frame::Conjunct) {
            self.steps.push(Step::And)?;
        }
        self.phase = Phase::HasOperand;
        Ok(())
    }

    /// Closes the `or` before a conjunction.
    fn join(&mut self) -> Result<(), AllocError>
        ensures { OnOk result (self.new ≡ joined self.old.frames self.old.steps) }
    {
        if self.frames.close(Frame::Disjunct) {
            self.steps.push(Step::Or)?;
        }
        self.phase = Phase::HasOperand;
        Ok(())
    }

    /// The steps, where the text may end. `At` comes exactly where it may not.
    #[tactic(auto, unfolding(crate::specs::Reading::finished))]
    pub(crate) fn finish(mut self, at: u32) -> Result<Vec<Step>, FilterFault>
        ensures ok { IfOk result (λ steps. finished self ≡ Some steps.items) }
        ensures err { IfErr result (Refuses (finished self) at) }
    {
        let Phase::HasOperand = self.phase else {
            return Err(FilterFault::At { at });
        };
        self.join()?;
        if !self.frames.is_empty() {
            return Err(FilterFault::At { at });
        }
        Ok(self.steps)
    }
}
