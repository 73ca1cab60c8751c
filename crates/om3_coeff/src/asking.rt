ghost use Rattle.std.specs.Prelude.{◌≡◌, ◌≢◌, ◌+◌, ◌≤◌, None, Some, IfOk, IfErr, OnOk, OnErr};
ghost use Rattle.om3_coeff.specs.Keys.{page_levels, left_of, right_of};
ghost use Rattle.om3_coeff.specs.Spans.{hull};
ghost use Rattle.om3_coeff.specs.View.{IsNodeOf, MayAsk, HasCause, NamesOnly};
ghost use Rattle.om3_coeff.specs.Walks.{IsReached};

use crate::errors::NodeError;
use crate::joining::split;
use crate::key::Key;
use crate::nodes::Nodes;
use crate::span::Span;

/// One step of a walk: asks the coefficient of a key with this span, and answers the spans of the two
/// halves of its range.
pub fn ask<N: Nodes>(
    nodes: &mut N,
    key: Key,
    span: Span,
) -> Result<(Option<Span>, Option<Span>), NodeError>
    requires fit { (N.view nodes.old).fit }
    requires key { IsNodeOf (N.view nodes.old) key }
    requires reached { IsReached (N.view nodes.old) key (Some span) }

    ensures fit { (N.view nodes.new).fit }
    ensures kept { N.keeps nodes.old nodes.new }
    ensures left { IfOk result (λ halves. IsReached (N.view nodes.old) (left_of key) halves.0) }
    ensures right { IfOk result (λ halves. IsReached (N.view nodes.old) (right_of key) halves.1) }
    ensures whole { IfOk result (λ halves. hull halves.0 halves.1 ≡ Some span) }
    ensures asked { OnOk result ((N.view nodes.new).asked ≡ Some key) }
    ensures failed { OnErr result ((N.view nodes.new).asked ≡ None) }
    ensures one_read { MayAsk (N.view nodes.old) key → (N.view nodes.new).reads ≤ (N.view nodes.old).reads + 1 }
    ensures reads { (N.view nodes.new).reads ≤ (N.view nodes.old).reads + page_levels (N.view nodes.old).slots }
    ensures faults { (N.view nodes.old).faults ≤ (N.view nodes.new).faults }
    ensures cause { IfErr result (HasCause (N.view nodes.old) (N.view nodes.new)) }
    ensures quiet { OnOk result ((N.view nodes.new).faults ≡ (N.view nodes.old).faults) }
    ensures quiet_err { IfErr result (λ e. e ≢ NodeError.DiskFault → (N.view nodes.new).faults ≡ (N.view nodes.old).faults) }
    ensures named { IfErr result (NamesOnly key) }
{
    let coef = nodes.coef(key, span)?;
    let Ok(halves) = split(span, coef) else {
        unreachable!()
    };
    Ok(halves)
}
