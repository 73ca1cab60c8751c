//! A series is sent.
ghost use Rattle.std.specs.Prelude.{◌≡◌, ◌≤◌, ◌<◌, ◌+◌, length, IfOk, IfErr, OnOk, OnErr};
ghost use Rattle.block_disk.specs.Streams.{sent_after, PartSent};
ghost use Rattle.chart_world.specs.Faults.{CountsFault, fault_in};
ghost use Rattle.series_book.specs.Pages.{series_pages};
ghost use Rattle.series_store.specs.Sending.{SendsOn, IsSeriesCause, IsNoDamage};
ghost use Rattle.series_store.specs.Shown as shown;
ghost use Rattle.series_export.specs.Cuts.{CutsExport};
ghost use Rattle.series_export.specs.Exports.{header, export_text, window_pages};
ghost use Rattle.series_export.specs.Faults.{send_fault};

use crate::reading_texts::ReadingTexts;
use crate::window::Window;
use gate_pages::PageWorld;
use series_store::{SendError, Store};
use std::alloc::{AllocError, Global};

/// Room for a piece and a line.
const ROOM: usize = 16_480;

/// The header, with room for a piece behind it.
fn started(alloc: Global) -> Result<Vec<u8>, AllocError>
    ensures header { IfOk result (λ out. out.items ≡ header) }
{
    let mut out = Vec::with_capacity(alloc, ROOM)?;
    out.extend_from_slice(b"time,value\n")?;
    Ok(out)
}

/// Sends the header and, in rising time, the line of each stored value of the series of this id, or of those
/// whose times are in the window. They go out in pieces, and each page of the series' tree is read once at
/// most, so memory doesn't grow with the series.
///
/// After an error a front of this text was sent. `SendFault` and `DiskFault` come where the count of their
/// faults has risen, and with no other end does it rise; `Damaged` comes with the first page that is bad for its
/// place, `NoMemory` for want of memory. Where the series' record and its tree stand for a series its text is sent,
/// whatever else is damaged; and where the tree has damaged pages, a front of the text that it had, as far as these fit no
/// place. Nothing is written, and the selected series stays.
pub fn export_series<P: PageWorld>(
    alloc: Global,
    store: &mut Store<P>,
    id: u16,
    window: Option<Window>,
) -> Result<(), SendError>
    requires sound { (shown.view store.old).fit }
    requires there { id < length (shown.catalog store.old) }
    ensures sent { shown.ForSeries store.old id (λ total book series. OnOk result
        (P.sent (shown.pages store.new) ≡ sent_after (export_text series window) (P.sent (shown.pages store.old)))) }
    ensures part { shown.ForSeries store.old id (λ total book series. OnErr result
        (PartSent (export_text series window) (P.sent (shown.pages store.old)) (P.sent (shown.pages store.new)))) }
    ensures no_damage { shown.ForSeries store.old id (λ total book series. IfErr result IsNoDamage) }
    ensures reads { shown.ForSeries store.old id (λ total book series.
        (shown.view store.new).reads ≤ (shown.view store.old).reads + series_pages series.slots) }
    // so it is of what the record and, where its pages fit, the tree stand for, whatever else the pages are
    ensures salvaged { shown.ForFit store.old id (λ series. OnOk result
        (P.sent (shown.pages store.new) ≡ sent_after (export_text series window) (P.sent (shown.pages store.old)))) }
    ensures salvaged_part { shown.ForFit store.old id
        (λ series. OnErr result (PartSent (export_text series window) (P.sent (shown.pages store.old)) (P.sent (shown.pages store.new)))) }
    ensures salvaged_reads { shown.ForFit store.old id
        (λ series. (shown.view store.new).reads ≤ (shown.view store.old).reads + window_pages series window) }
    // where a page is damaged, the lines of all values before its slots were sent
    ensures cut { shown.ForFit store.old id (λ series. IfErr result
        (λ e. CutsExport e (shown.image store.old) (shown.total store.old) id series window (P.sent (shown.pages store.old))
        (P.sent (shown.pages store.new)))) }
    // and where the whole tree stands none is
    ensures sound { shown.ForKept store.old id (λ series. IfErr result IsNoDamage) }
    ensures cause { IfErr result (λ e. IsSeriesCause e (shown.IsTold store.old) (shown.numbers store.old) id (shown.view store.old)
        (shown.view store.new)) }
    ensures faults { CountsFault (fault_in send_fault result) (shown.view store.old) (shown.view store.new) }
    // a crash leaves at each moment what it might have left before
    ensures sends { SendsOn store.old store.new }
    ensures catalog { shown.SameCatalog store.old store.new }
    ensures selected { shown.SelectsSame store.old store.new }
{
    let info = store.info(id);
    let texts = ReadingTexts {
        start: info.start,
        step: info.step,
        scale: info.scale,
        slots: info.slots,
        window,
    };
    let mut out = started(alloc)?;
    store.send_values(id, &texts, &mut out)
}
