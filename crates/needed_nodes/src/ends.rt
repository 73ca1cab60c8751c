ghost use Rattle.std.specs.Prelude.{◌≡◌, ◌+◌, ◌≤◌, None, IfOk, IfErr, ◌≢◌, OnOk};
ghost use Rattle.om3_coeff.specs.declared.errors.NodeError.TheVariants.{DiskFault};
ghost use Rattle.om3_coeff.specs.Keys.{page_levels};
ghost use Rattle.om3_coeff.specs.View.{MayAsk};
ghost use Rattle.view_keys.specs.Wanted.{Seen};
ghost use Rattle.needed_nodes.specs.Ranks.{IsInside};
ghost use Rattle.needed_nodes.specs.Serving.{Serves, IsReady, IsCauseOf};
ghost use Rattle.needed_nodes.specs.Ends.{MayHold, most_ends, slot_values, halves_values, either, Follows};

use crate::asking::ask;
use crate::scan_of::ScanOf;
use crate::window::Window;
use om3_coeff::{Coef, Key, Nodes, Span};
use view_keys::laws::flat_keys_hold_flat_keys;

/// Which ends of a column are sought.
#[derive(Clone, Copy)]
pub(crate) struct Sought {
    pub(crate) first: bool,
    pub(crate) last: bool,
}

pub(crate) const FIRST: Sought = Sought {
    first: true,
    last: false,
};

pub(crate) const LAST: Sought = Sought {
    first: false,
    last: true,
};

pub(crate) const BOTH: Sought = Sought {
    first: true,
    last: true,
};

impl Sought {
    ghost use Rattle.std.specs.Prelude.{◌≡◌, ◌⊎◌, IsTrue, IsFalse, false};
    ghost use Rattle.needed_nodes.specs.Ends.{sought_left, sought_right};

    /// Whether neither end is sought.
    fn is_nothing(self) -> bool
        ensures none { IsTrue result → (self.first ≡ false) × (self.last ≡ false) }
        ensures some { IsFalse result → IsTrue self.first ⊎ IsTrue self.last }
    {
        !self.first && !self.last
    }

    /// What is sought in the first half of a range, by the span of the second half.
    fn in_left(self, right: Option<Span>) -> Sought
        ensures { result ≡ sought_left self right }
    {
        Sought {
            first: self.first,
            last: self.last && right.is_none(),
        }
    }

    /// What is sought in the second half of a range, by the span of the first half.
    fn in_right(self, left: Option<Span>) -> Sought
        ensures { result ≡ sought_right self left }
    {
        Sought {
            first: self.first && left.is_none(),
            last: self.last,
        }
    }
}

/// Values of the heights of the first and the last stored one of a range, where they were sought.
#[derive(Clone, Copy)]
pub(crate) struct EndValues {
    pub(crate) first: Option<i64>,
    pub(crate) last: Option<i64>,
}

/// Asks the keys at or below a key of a column that hold a sought end of the column and aren't flat,
/// keeps each with its coefficient, and answers values of the heights of those there.
pub(crate) fn follow<N: Nodes>(
    nodes: &mut N,
    window: &Window,
    column: u16,
    key: Key,
    span: Option<Span>,
    sought: Sought,
    keys: &mut Vec<(Key, Coef)>,
) -> Result<EndValues, ScanOf>
    requires ready { IsReady (N.view nodes.old) window.now key span }
    requires inside { IsInside window.now column key }
    requires clear { (S : Seen) → Serves (N.view nodes.old) window.now S → MayHold S window.now column sought key }

    ensures fit { (N.view nodes.new).fit }
    ensures kept { N.keeps nodes.old nodes.new }
    ensures few_reads { MayAsk (N.view nodes.old) key → (N.view nodes.new).reads ≤ (N.view nodes.old).reads + most_ends span sought key }
    ensures reads { (N.view nodes.new).reads ≤ (N.view nodes.old).reads + most_ends span sought key + page_levels (N.view nodes.old).slots }
    ensures faults { (N.view nodes.old).faults ≤ (N.view nodes.new).faults }
    ensures cause { IfErr result (IsCauseOf (N.view nodes.old) (N.view nodes.new) window.now) }
    ensures quiet { OnOk result ((N.view nodes.new).faults ≡ (N.view nodes.old).faults) }
    ensures quiet_err { IfErr result (λ e. e ≢ ScanOf.Node DiskFault → (N.view nodes.new).faults ≡ (N.view nodes.old).faults) }
    ensures found { IfOk result (Follows (N.view nodes.old)
        (N.view nodes.new) window.now column key span sought keys.old.items keys.new.items) }
{
    let Some(span) = span else {
        return Ok(nothing());
    };
    if sought.is_nothing() {
        return Ok(nothing());
    }
    if key.level == 0 {
        return Ok(of_slot(sought, span.min));
    }
    if window.is_flat(span) {
        flat_keys_hold_flat_keys();
        return Ok(of_slot(sought, span.min));
    }
    let node = ask(nodes, window, key, span)?;
    keys.push((key, node.coef))?;
    let front = follow(
        nodes,
        window,
        column,
        key.left(),
        node.left,
        sought.in_left(node.right),
        keys,
    )?;
    let back = follow(
        nodes,
        window,
        column,
        key.right(),
        node.right,
        sought.in_right(node.left),
        keys,
    )?;
    Ok(of_halves(front, back))
}

fn nothing() -> EndValues
    ensures first { result.first ≡ None }
    ensures last { result.last ≡ None }
{
    EndValues {
        first: None,
        last: None,
    }
}

/// The values of a range of one slot, or of one height.
fn of_slot(sought: Sought, value: i64) -> EndValues
    ensures { result ≡ slot_values sought value }
{
    EndValues {
        first: if sought.first { Some(value) } else { None },
        last: if sought.last { Some(value) } else { None },
    }
}

/// The values of a range from those of its halves.
fn of_halves(left: EndValues, right: EndValues) -> EndValues
    ensures { result ≡ halves_values left right }
{
    EndValues {
        first: either(left.first, right.first),
        last: either(right.last, left.last),
    }
}

/// The first value that is there.
fn either(first: Option<i64>, second: Option<i64>) -> Option<i64>
    ensures { result ≡ either first second }
{
    match first {
        None => second,
        Some(value) => Some(value),
    }
}
