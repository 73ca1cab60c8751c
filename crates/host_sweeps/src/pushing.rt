//! To whom a frame is pushed behind the clears of a rule.
ghost use Rattle.std.specs.Prelude.{IfErr, OnOk};
ghost use Rattle.host_sweeps.specs.Steps.{PushesBehind};
ghost use Rattle.live_view.specs.Live as follows;

use gate_pages::PageWorld;
use live_service::ServiceStepper;
use live_view::Live;
use retention::Rule;
use std::alloc::AllocError;

/// Behind so many clears of a rule a push is pending for each session that follows the series which the rule names, and
/// where it names none, for each one that is followed. Behind none, none is.
pub(crate) fn push_behind<P: PageWorld>(
    live: &mut Live<ServiceStepper<P>>,
    rule: &Rule,
    clears: u64,
) -> Result<(), AllocError>
    requires idle { follows.IsIdle live.old }
    ensures pushes { OnOk result (PushesBehind rule.now clears live.old live.new) }
    ensures unchanged { IfErr result (λ e. follows.Stays live.old live.new) }
{
    if clears == 0 {
        return Ok(());
    }
    match rule {
        Rule::Before { name, .. } => live.push_to(name),
        Rule::Last { name, .. } => live.push_to(name),
        Rule::Free { .. } => live.push_to_all(),
    }
}
