//! A line is swept and answered.
ghost use Rattle.std.specs.Prelude.{◌≡◌, ◌≢◌, ◌≤◌, Err, length, IfErr, IfOk, OnOk};
ghost use Rattle.block_disk.specs.Counts.{HasRisen};
ghost use Rattle.block_disk.specs.Streams.{sent_after};
ghost use Rattle.chart_world.specs.Faults.{CountsFault, fault_in};
ghost use Rattle.run_ends.specs.Faults.{end_fault};
ghost use Rattle.series_store.specs.Shown as shown;
ghost use Rattle.retain_command.specs.Answers.{swept_text};
ghost use Rattle.store_commands.specs.Sides.{side_of};
ghost use Rattle.retain_command.specs.Shown.{IsBadOn};
ghost use Rattle.retain_command.specs.Doing.{DoesLineOn, DoesRuleOn, Goes, IsCause, LineFails, LineSays, RuleFails, SaysSwept, TextStops};
ghost use Rattle.retain_command.specs.Doing.{end_at};

use crate::rule_error::RuleError;
use crate::rules::rule_of;
use block_disk::Streams;
use gate_pages::PageWorld;
use retention::{Rule, SweepError, Swept, sweep};
use run_ends::End;
use series_store::Store;
use std::alloc::{AllocError, Global};

/// What an error of a sweep is for the line at this offset.
fn end_at(at: u32, error: SweepError) -> End
    ensures { result ≡ end_at at error }
{
    match error {
        SweepError::UnknownSeries => End::NoSeries { at },
        SweepError::DiskFault => End::DiskFault,
        SweepError::Damaged { page } => End::DamagedPage { page },
        SweepError::NoMemory => End::NoMemory,
    }
}

/// What is said of a sweep.
fn swept_text(alloc: Global, swept: Swept) -> Result<Vec<u8>, AllocError>
    ensures { IfOk result (λ text. text.items ≡ swept_text swept.clears swept.used) }
{
    Ok(format!(in alloc; "swept {} {}\n", swept.clears, swept.used)?.into_bytes())
}

/// Sends what is said of a sweep.
fn send_swept<P: PageWorld>(alloc: Global, store: &mut Store<P>, swept: Swept) -> Result<(), End>
    ensures whole { OnOk result (P.sent (shown.pages store.new) ≡ sent_after (swept_text swept.clears swept.used)
        (P.sent (shown.pages store.old))) }
    ensures stops { IfErr result (TextStops (swept_text swept.clears swept.used) (P.sent (shown.pages store.old))
        (P.sent (shown.pages store.new))) }
    ensures cause { result ≡ Err End.SendFault → HasRisen (P.send_faults (shown.pages store.old)) (P.send_faults (shown.pages store.new)) }
    ensures long { result ≢ Err End.InputTooLong }
    ensures faults { CountsFault (fault_in end_fault result) (shown.view store.old) (shown.view store.new) }
    ensures send_faults { P.send_faults (shown.pages store.old) ≤ P.send_faults (shown.pages store.new) }
    ensures left { P.left (shown.pages store.new) ≡ P.left (shown.pages store.old) }
    ensures pieces { P.pieces (shown.pages store.new) ≡ P.pieces (shown.pages store.old) }
    ensures read_faults { P.read_faults (shown.pages store.new) ≡ P.read_faults (shown.pages store.old) }
    ensures beside { shown.Keeps (P.sends (length (swept_text swept.clears swept.used)) (shown.pages store.old) (shown.pages store.new))
        store.old store.new }
{
    let Ok(text) = swept_text(alloc, swept) else {
        return Err(End::NoMemory);
    };
    match store.send(text.as_slice()) {
        Ok(()) => Ok(()),
        Err(_) => Err(End::SendFault),
    }
}

/// Sweeps the rule that the line at this offset spells, and sends what is said of it.
fn answer_rule<P: PageWorld>(
    alloc: Global,
    store: &mut Store<P>,
    at: u32,
    rule: &Rule,
) -> Result<(), End>
    requires sound { shown.IsSound store.old }
    ensures does { shown.ForBook store.old (DoesRuleOn P.sent rule.now at result store.old store.new) }
    ensures says { OnOk result (SaysSwept (P.sent (shown.pages store.old)) (P.sent (shown.pages store.new))) }
    ensures fails { IfErr result (RuleFails rule.now at (IsBadOn store.new) (shown.catalog store.new) (P.sent (shown.pages store.old))
        (P.sent (shown.pages store.new))) }
    ensures goes { Goes (side_of P.Streams store.old) (side_of P.Streams store.new) }
    ensures cause { IfErr result (λ e. IsCause e (side_of P.Streams store.old) (side_of P.Streams store.new)) }
    ensures long { result ≢ Err End.InputTooLong }
    ensures faults { CountsFault (fault_in end_fault result) (shown.view store.old) (shown.view store.new) }
    ensures sound { result ≢ Err End.DiskFault → shown.IsSound store.new }
    ensures left { P.left (shown.pages store.new) ≡ P.left (shown.pages store.old) }
    ensures pieces { P.pieces (shown.pages store.new) ≡ P.pieces (shown.pages store.old) }
{
    match sweep(store, rule) {
        Ok(swept) => send_swept(alloc, store, swept),
        Err(error) => Err(end_at(at, error)),
    }
}

/// Sweeps the rule of a line and answers it, unless the line is empty.
pub(crate) fn answer_line<P: PageWorld>(
    alloc: Global,
    store: &mut Store<P>,
    at: u32,
    line: &[u8],
) -> Result<(), End>
    requires sound { shown.IsSound store.old }
    ensures does { shown.ForBook store.old (DoesLineOn P.sent line.now at result store.old store.new) }
    ensures says { OnOk result (LineSays line.now (P.sent (shown.pages store.old)) (P.sent (shown.pages store.new))) }
    ensures fails { IfErr result (LineFails line.now at (IsBadOn store.new) (shown.catalog store.new) (P.sent (shown.pages store.old))
        (P.sent (shown.pages store.new))) }
    ensures goes { Goes (side_of P.Streams store.old) (side_of P.Streams store.new) }
    ensures cause { IfErr result (λ e. IsCause e (side_of P.Streams store.old) (side_of P.Streams store.new)) }
    ensures long { result ≢ Err End.InputTooLong }
    ensures faults { CountsFault (fault_in end_fault result) (shown.view store.old) (shown.view store.new) }
    ensures sound { result ≢ Err End.DiskFault → shown.IsSound store.new }
    ensures left { P.left (shown.pages store.new) ≡ P.left (shown.pages store.old) }
    ensures pieces { P.pieces (shown.pages store.new) ≡ P.pieces (shown.pages store.old) }
{
    if line.is_empty() {
        return Ok(());
    }
    match rule_of(alloc, line) {
        Ok(rule) => answer_rule(alloc, store, at, &rule),
        Err(RuleError::NoRule) => Err(End::BadInput { at: u64::from(at) }),
        Err(RuleError::NoMemory) => Err(End::NoMemory),
    }
}
