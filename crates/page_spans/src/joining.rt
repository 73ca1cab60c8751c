//! Spans joined from the leaves up.
ghost use Rattle.std.specs.Prelude.{◌≡◌, ◌≢◌, ◌<◌, ◌≤◌, ◌+◌, ◌*◌, ℕ, length};
ghost use Rattle.block_disk.specs.Blocks.{IsBlock};
ghost use Rattle.om3_coeff.specs.Spans.{hull};
ghost use Rattle.om3_coeff.specs.Coefs.{coef_of};
ghost use Rattle.node_page.specs.Fields.{coef_at};
ghost use Rattle.page_spans.specs.Heaps.{span_at, AreProper, IsHeap, AllButAbove, IsKept};

use node_page::set_coef;
use om3_coeff::{Span, join};

// Joins the halves of a node, and writes its coefficient.
fn join_node(spans: &mut [Option<Span>], bytes: &mut [u8], node: u8)
    requires spans { length spans.old ≡ 255 }
    requires whole { IsBlock bytes.old }
    requires node { node < 127 }
    requires proper { AreProper (span_at spans.old) }
    ensures spans { length spans.new ≡ 255 }
    ensures whole { IsBlock bytes.new }
    ensures proper { AreProper (span_at spans.new) }
    ensures span { span_at spans.new node ≡ hull (span_at spans.old (2 * node + 1)) (span_at spans.old (2 * node + 2)) }
    ensures others { (n : ℕ) → n ≢ node → span_at spans.new n ≡ span_at spans.old n }
    ensures coef { coef_at bytes.new node ≡ coef_of (span_at spans.old (2 * node + 1)) (span_at spans.old (2 * node + 2)) }
    ensures coefs { (n : ℕ) → n < 127 → n ≢ node → coef_at bytes.new n ≡ coef_at bytes.old n }
    ensures kept { IsKept bytes.old bytes.new }
{
    let at = usize::from(node);
    let (coef, span) = join(spans[2 * at + 1], spans[2 * at + 2]);
    spans[at] = span;
    set_coef(bytes, node, coef);
}

/// Joins the halves of all nodes, from the lowest up, and writes their coefficients.
pub(crate) fn join_all(spans: &mut [Option<Span>], bytes: &mut [u8])
    requires spans { length spans.old ≡ 255 }
    requires whole { IsBlock bytes.old }
    requires proper { AreProper (span_at spans.old) }
    ensures spans { length spans.new ≡ 255 }
    ensures whole { IsBlock bytes.new }
    ensures proper { AreProper (span_at spans.new) }
    ensures heap { IsHeap (span_at spans.new) (coef_at bytes.new) }
    ensures leaves { (n : ℕ) → 127 ≤ n → span_at spans.new n ≡ span_at spans.old n }
    ensures kept { IsKept bytes.old bytes.new }
{
    for node in (0..127).rev() {
        join_node(spans, bytes, node);
    }
}

/// Joins the halves of the seven nodes above a leaf, from the lowest up, and writes their coefficients.
/// All nodes that don't lie directly above the leaf are joined before.
pub(crate) fn join_above(spans: &mut [Option<Span>], bytes: &mut [u8], leaf: u8)
    requires spans { length spans.old ≡ 255 }
    requires whole { IsBlock bytes.old }
    requires leaf { leaf < 128 }
    requires proper { AreProper (span_at spans.old) }
    requires joined { AllButAbove (span_at spans.old) (coef_at bytes.old) (127 + leaf) }
    ensures spans { length spans.new ≡ 255 }
    ensures whole { IsBlock bytes.new }
    ensures proper { AreProper (span_at spans.new) }
    ensures heap { IsHeap (span_at spans.new) (coef_at bytes.new) }
    ensures leaves { (n : ℕ) → 127 ≤ n → span_at spans.new n ≡ span_at spans.old n }
    ensures kept { IsKept bytes.old bytes.new }
{
    let mut place = 127 + leaf;
    while place > 0 {
        place = (place - 1) / 2;
        join_node(spans, bytes, place);
    }
}
