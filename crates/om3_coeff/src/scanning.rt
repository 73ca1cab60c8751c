ghost use Rattle.std.specs.Prelude.{◌≡◌};
ghost use Rattle.om3_coeff.specs.Spans.{span_of, span_of_slot};

use crate::joining::hull;
use crate::span::Span;

/// The least and the greatest stored value of a list of slots.
pub(crate) fn span_of(slots: &[Option<i64>]) -> Option<Span>
    ensures { result ≡ span_of slots.now }
{
    let mut span = None;
    for slot in slots {
        span = hull(span, of_slot(*slot));
    }
    span
}

fn of_slot(slot: Option<i64>) -> Option<Span>
    ensures { result ≡ span_of_slot slot }
{
    slot.map(|value| Span {
        min: value,
        max: value,
    })
}
