//! Spans split from the top down.
ghost use Rattle.std.specs.Prelude.{◌≡◌, ◌≢◌, ◌<◌, ◌+◌, ◌*◌, ℕ, length, None, IfOk, OnOk, IfErr, OnErr};
ghost use Rattle.om3_coeff.specs.Spans.{IsProperIfAny};
ghost use Rattle.node_page.specs.Fields.{coef_at};
ghost use Rattle.page_spans.specs.Heaps.{span_at, AreProper, HasHalves, IsSplit};
ghost use Rattle.page_spans.specs.Failing.{IsUnsplit, IsFirstBad};

use crate::errors::BadNode;
use node_page::PageView;
use om3_coeff::{BadCoef, Coef, Span, split};

// The spans of the two halves of a place.
fn halves(span: Option<Span>, coef: Coef) -> Result<(Option<Span>, Option<Span>), BadCoef>
    requires proper { IsProperIfAny span }
    ensures halves { IfOk result (λ both. HasHalves span coef both.0 both.1) }
    ensures proper { IfOk result (λ both. IsProperIfAny both.0 × IsProperIfAny both.1) }
    ensures none { OnErr result (IsUnsplit span coef) }
{
    match span {
        Some(span) => split(span, coef),
        None => Ok((None, None)),
    }
}

// Splits the span of a node.
fn split_node(spans: &mut [Option<Span>], node: u8, coef: Coef) -> Result<(), BadCoef>
    requires whole { length spans.old ≡ 255 }
    requires node { node < 127 }
    requires proper { AreProper (span_at spans.old) }
    ensures whole { length spans.new ≡ 255 }
    ensures proper { AreProper (span_at spans.new) }
    ensures halves { OnOk result (HasHalves (span_at spans.old node) coef (span_at spans.new (2 * node + 1))
        (span_at spans.new (2 * node + 2))) }
    ensures others { (n : ℕ) → n ≢ 2 * node + 1 → n ≢ 2 * node + 2 → span_at spans.new n ≡ span_at spans.old n }
    ensures none { OnErr result (IsUnsplit (span_at spans.old node) coef) }
{
    let at = usize::from(node);
    let (left, right) = halves(spans[at], coef)?;
    spans[2 * at + 1] = left;
    spans[2 * at + 2] = right;
    Ok(())
}

/// Splits the spans of all nodes, from the one at the top down.
pub(crate) fn split_all(spans: &mut [Option<Span>], page: &PageView) -> Result<(), BadNode>
    requires whole { length spans.old ≡ 255 }
    requires proper { AreProper (span_at spans.old) }
    ensures whole { length spans.new ≡ 255 }
    ensures proper { AreProper (span_at spans.new) }
    ensures top { span_at spans.new 0 ≡ span_at spans.old 0 }
    ensures splits { OnOk result ((n : ℕ) → n < 127 → IsSplit (span_at spans.new) (coef_at page.now.bytes.now) n) }
    ensures bad { IfErr result (λ bad. IsFirstBad (span_at spans.new) (coef_at page.now.bytes.now) bad.node) }
{
    for node in 0..127 {
        let Ok(()) = split_node(spans, node, page.coef_at(node)) else {
            return Err(BadNode { node });
        };
    }
    Ok(())
}
