ghost use Rattle.std.specs.Prelude.{◌≡◌, ◌≤◌, ◌≤ℤ◌, length, IfOk, IfErr};
ghost use Rattle.value_filter.specs.Expressions.{Expression, holds_at};
ghost use Rattle.value_filter.specs.Steps.{expression_of, postfix};
ghost use Rattle.value_filter.specs.Boxes.{IsAnswer};
ghost use Rattle.value_filter.specs.Grammar.{IsFilter, RefusesText, Gives};

use crate::answer_stack::AnswerStack;
use crate::box_answers::BoxAnswer;
use crate::faults::FilterFault;
use crate::parser::Parser;
use crate::pieces::{first_piece, past_spaces};
use crate::steps::Step;
use crate::tokens::Token;
use std::alloc::{AllocError, Global};
use std::marker::Model;

/// A filter of points. It is seen as its steps in postfix order, which are those of one expression.
#[derive(Drop)]
pub struct Filter {
    steps: Vec<Step>,
}

impl Model for Filter {
    ghost use Rattle.std.specs.Prelude.{List};
    ghost use Rattle.value_filter.specs.declared.steps.Step.{Step};
    ghost use Rattle.value_filter.specs.Steps.{AreOfExpression};

    ghost Value = { List Step };

    ghost view = { λ filter. filter.steps.items };

    ghost invariant = { λ filter. AreOfExpression filter.steps.items };
}

impl Filter {
    /// The filter that a text of at most 8,192 bytes spells. `At` comes exactly where it spells none,
    /// with the offset of the first byte of the first piece that is no token or can't stand there, or
    /// the text's length where the text ends too early.
    pub fn parse(alloc: Global, text: &[u8]) -> Result<Filter, FilterFault>
        requires { length text.now ≤ 8192 }
        ensures ok { IfOk result (λ filter. IsFilter text.now (expression_of filter)) }
        ensures steps { IfOk result (λ filter. filter ≡ postfix (expression_of filter)) }
        ensures reads { (f : Expression) → IsFilter text.now f → Gives f result }
        ensures err { IfErr result (RefusesText text.now) }
    {
        let mut parser = Parser::new(alloc);
        let mut rest = past_spaces(text);
        'pieces: while !rest.is_empty() {
            let at = (text.len() - rest.len()) as u32;
            let piece = first_piece(rest);
            let Some(token) = Token::of(piece) else {
                return Err(FilterFault::At { at });
            };
            parser.take(token, at)?;
            rest = past_spaces(&rest[piece.len()..]);
        }
        let steps = parser.finish(text.len() as u32)?;
        Ok(Filter { steps })
    }

    /// Whether the filter holds of the point with the time `t` and the whole number `v`.
    pub fn holds(&self, t: i64, v: i64) -> bool
        ensures { result ≡ holds_at (expression_of self.now) t v }
    {
        self.on_box((t, t), (v, v)) == BoxAnswer::All
    }

    /// What the filter says of all points whose time and whose whole number lie in these intervals,
    /// to which both of their numbers belong.
    pub fn on_box(&self, times: (i64, i64), values: (i64, i64)) -> BoxAnswer
        requires times { times.0 ≤ℤ times.1 }
        requires values { values.0 ≤ℤ values.1 }
        ensures { IsAnswer (expression_of self.now) times values result }
    {
        let mut answers = AnswerStack::new();
        for step in &self.steps {
            answers.take(*step, times, values);
        }
        answers.pop()
    }

    /// An equal filter.
    pub fn copy(&self) -> Result<Filter, AllocError>
        ensures { IfOk result (λ filter. filter ≡ self.now) }
    {
        Ok(Filter {
            steps: self.steps.clone()?,
        })
    }

    /// An equal filter, in memory of `alloc`.
    pub fn copy_in(&self, alloc: Global) -> Result<Filter, AllocError>
        ensures { IfOk result (λ filter. filter ≡ self.now) }
    {
        let mut steps = Vec::with_capacity(alloc, self.steps.len())?;
        steps.extend_from_slice(&self.steps)?;
        Ok(Filter { steps })
    }
}
