ghost use Rattle.std.specs.Prelude.{◌≤◌, length, IfSome};
ghost use Rattle.chart_service.specs.Planning.{IsFilterOf};

use request_lines::FilterText;
use std::alloc::Global;
use value_filter::{Filter, FilterFault};

/// The filter that a view's text spells, where the view has one.
pub(crate) fn filter_of(
    alloc: Global,
    text: &Option<FilterText>,
) -> Result<Option<Filter>, FilterFault>
    requires { IfSome text.now (λ text. length text ≤ 8192) }
    ensures { IsFilterOf text.now result }
{
    match text {
        Some(text) => {
            let filter = Filter::parse(alloc, text.as_slice())?;
            Ok(Some(filter))
        }
        None => Ok(None),
    }
}
