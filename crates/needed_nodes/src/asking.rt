ghost use Rattle.std.specs.Prelude.{◌≡◌, ◌+◌, ◌≤◌, Option, Some, IfOk, IfErr, OnOk, ◌≢◌};
ghost use Rattle.om3_coeff.specs.Keys.{page_levels, left_of, right_of};
ghost use Rattle.om3_coeff.specs.Spans.{hull};
ghost use Rattle.om3_coeff.specs.View.{MayAsk, HasCause};
ghost use Rattle.view_keys.specs.Wanted.{Seen, IsWanted};
ghost use Rattle.needed_nodes.specs.Answers.{CanSplit};
ghost use Rattle.needed_nodes.specs.Serving.{Serves, IsReady, NamesWanted};

use crate::window::Window;
use om3_coeff::{Coef, Key, NodeError, Nodes, Span, split};

/// A key's coefficient, and the spans of the halves of its range.
#[derive(Clone, Copy)]
pub(crate) struct Node {
    pub(crate) coef: Coef,
    pub(crate) left: Option<Span>,
    pub(crate) right: Option<Span>,
}

/// Asks the coefficient of a key that the view wants.
pub(crate) fn ask<N: Nodes>(
    nodes: &mut N,
    window: &Window,
    key: Key,
    span: Span,
) -> Result<Node, NodeError>
    requires ready { IsReady (N.view nodes.old) window.now key (Some span) }
    requires low { 1 ≤ key.level }
    requires wanted { (S : Seen) → Serves (N.view nodes.old) window.now S
        → IsWanted S window.now.axis window.now.grid window.now.lo window.now.hi key }

    ensures fit { (N.view nodes.new).fit }
    ensures kept { N.keeps nodes.old nodes.new }
    ensures left { IfOk result (λ node. IsReady (N.view nodes.new) window.now (left_of key) node.left) }
    ensures right { IfOk result (λ node. IsReady (N.view nodes.new) window.now (right_of key) node.right) }
    ensures whole { IfOk result (λ node. hull node.left node.right ≡ Some span) }
    ensures told { IfOk result (λ node. (S : Seen) → Serves (N.view nodes.old) window.now S → S.told key ≡ Some node.coef) }
    ensures splits { IfOk result (λ node. CanSplit node.coef) }
    ensures asked { OnOk result ((N.view nodes.new).asked ≡ Some key) }
    ensures one_read { MayAsk (N.view nodes.old) key → (N.view nodes.new).reads ≤ (N.view nodes.old).reads + 1 }
    ensures reads { (N.view nodes.new).reads ≤ (N.view nodes.old).reads + page_levels (N.view nodes.old).slots }
    ensures faults { (N.view nodes.old).faults ≤ (N.view nodes.new).faults }
    ensures cause { IfErr result (HasCause (N.view nodes.old) (N.view nodes.new)) }
    ensures quiet { OnOk result ((N.view nodes.new).faults ≡ (N.view nodes.old).faults) }
    ensures quiet_err { IfErr result (λ e. e ≢ NodeError.DiskFault → (N.view nodes.new).faults ≡ (N.view nodes.old).faults) }
    ensures named { IfErr result (NamesWanted (N.view nodes.old) window.now) }
{
    let coef = nodes.coef(key, span)?;
    let Ok((left, right)) = split(span, coef) else {
        unreachable!()
    };
    Ok(Node { coef, left, right })
}
