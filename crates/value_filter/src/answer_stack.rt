ghost use Rattle.std.specs.Prelude.{◌≡◌, ◌<◌, ◌≤ℤ◌, List, [], ◌∷◌, length, Some};
ghost use Rattle.value_filter.specs.declared.steps.TheConstants.{PENDING};
ghost use Rattle.value_filter.specs.Expressions.{Expression};
ghost use Rattle.value_filter.specs.declared.box_answers.BoxAnswer.{BoxAnswer as AnswerOf};
ghost use Rattle.value_filter.specs.Boxes.{negated, both_of, either_of};
ghost use Rattle.value_filter.specs.Steps.{after_step};
ghost use Rattle.value_filter.specs.Telling.{HasRoom, AreAnswers};

use crate::box_answers::BoxAnswer;
use crate::steps::{PENDING, Step};
use std::marker::Model;

/// The answers that are pending while a filter's steps are told. They are seen as their list, the
/// last one first.
#[derive(Drop)]
pub(crate) struct AnswerStack {
    first_to_last: [BoxAnswer; PENDING],
    len: usize,
}

impl Model for AnswerStack {
    ghost use Rattle.std.specs.Prelude.{List, ◌≤◌, take, reverse};
    ghost use Rattle.value_filter.specs.declared.box_answers.BoxAnswer.{BoxAnswer as AnswerOf};
    ghost use Rattle.value_filter.specs.declared.steps.TheConstants.{PENDING};

    ghost Value = { List AnswerOf };

    ghost view = { λ stack. reverse (take stack.len stack.first_to_last) };

    ghost invariant = { λ stack. stack.len ≤ PENDING };
}

impl AnswerStack {
    /// No answer is pending.
    pub(crate) fn new() -> AnswerStack
        ensures { result ≡ [] }
    {
        AnswerStack {
            first_to_last: [BoxAnswer::Mixed; PENDING],
            len: 0,
        }
    }

    /// Takes a step: tells an atom on the box, or joins the last answers.
    pub(crate) fn take(&mut self, step: Step, times: (i64, i64), values: (i64, i64))
        requires times { times.0 ≤ℤ times.1 }
        requires values { values.0 ≤ℤ values.1 }
        requires room { HasRoom step (length self.old) }
        ensures { (pending next : List Expression) → AreAnswers pending times values self.old →
            after_step step pending ≡ Some next → AreAnswers next times values self.new }
    {
        match step {
            Step::Test(atom) => self.push(atom.on_box(times, values)),
            Step::Not => self.negate(),
            Step::And => self.join_both(),
            Step::Or => self.join_either(),
        }
    }

    /// Puts the answer of a `not` in place of the last one.
    fn negate(&mut self)
        requires { 0 < length self.old }
        ensures { (a : AnswerOf) (below : List AnswerOf) → self.old ≡ a ∷ below → self.new ≡ negated a ∷ below }
    {
        let answer = self.pop();
        self.push(answer.negated());
    }

    /// Puts the answer of an `and` in place of the last two.
    fn join_both(&mut self)
        requires { 1 < length self.old }
        ensures { (a b : AnswerOf) (below : List AnswerOf) → self.old ≡ b ∷ (a ∷ below) → self.new ≡ both_of a b ∷ below }
    {
        let second = self.pop();
        let first = self.pop();
        self.push(first.and(second));
    }

    /// Puts the answer of an `or` in place of the last two.
    fn join_either(&mut self)
        requires { 1 < length self.old }
        ensures { (a b : AnswerOf) (below : List AnswerOf) → self.old ≡ b ∷ (a ∷ below) → self.new ≡ either_of a b ∷ below }
    {
        let second = self.pop();
        let first = self.pop();
        self.push(first.or(second));
    }

    /// Puts an answer in front.
    fn push(&mut self, answer: BoxAnswer)
        requires { length self.old < PENDING }
        ensures { self.new ≡ answer ∷ self.old }
    {
        self.first_to_last[self.len] = answer;
        self.len += 1;
    }

    /// Takes the last answer.
    pub(crate) fn pop(&mut self) -> BoxAnswer
        requires { 0 < length self.old }
        ensures answer { self.old ≡ result ∷ self.new }
        ensures room { length self.new < PENDING }
    {
        self.len -= 1;
        self.first_to_last[self.len]
    }
}
