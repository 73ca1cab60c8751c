//! Lines that only a host answers, by the calls that answer them: reports of a book, and the steps of a sweep.
ghost use Rattle.std.specs.Prelude.{OnOk};
ghost use Rattle.chart_frames.specs.Frames.{Fits};
ghost use Rattle.live_service.specs.Shown as its;

use crate::worlds::{behind, behind_on, empty_of, world_of};
use block_disk::MemDisk;
use chart_frames::{Decoder, Frame, Report, encode};
use chart_service::Service;
use disk_store::open_store;
use gate_pages::{GatePages, PageWorld, Pages};
use host_lines::{HostLine, host_line};
use host_replies::answer_report;
use host_sweeps::sweep_step;
use live_service::ServiceStepper;
use live_view::Live;
use retention::Rule;
use series_book::Name;
use std::alloc::Global;
use std::test::Fail;

/// What a decoder makes of the spelling of a frame: the number of its kind, how many series, values, rows or clears it has
/// or which refusal it is, and whether more are left.
fn told(alloc: Global, frame: &Frame) -> Result<(u8, u64, bool), Fail>
    requires { Fits frame.now }
{
    let mut decoder = Decoder::new(alloc);
    decoder.feed(&encode(alloc, frame)?)?;
    let Some(frame) = decoder.next()? else {
        return Err(Fail::new("no frame"));
    };
    Ok(match frame {
        Frame::Refused { number, .. } => (2, u64::from(number), false),
        Frame::Rows(rows) => (6, u64::from(rows.count), false),
        Frame::Report(Report::Catalog(catalog)) => (
            8,
            catalog.series.as_slice().len() as u64,
            false,
        ),
        Frame::Report(Report::Values(values)) => (
            9,
            values.values.as_slice().len() as u64,
            values.more,
        ),
        Frame::Report(Report::Swept { clears, more, .. }) => (10, u64::from(clears), more),
        _ => return Err(Fail::new("another frame")),
    })
}

/// What is told of a line that asks for a report.
fn reported<P: Pages>(
    alloc: Global,
    service: &mut Service<P>,
    line: &[u8],
) -> Result<(u8, u64, bool), Fail> {
    if !service.is_sound() {
        return Err(Fail::new("the store isn't sound"));
    }
    let asked = host_line(alloc, line)?;
    match &asked {
        HostLine::List | HostLine::Values { .. } | HostLine::Sum { .. } | HostLine::Bad { .. } =>
            match answer_report(alloc, service, &asked) {
                Ok(frame) => told(alloc, &frame),
                Err(_) => Err(Fail::new("no report")),
            },
        HostLine::Sweep(_) | HostLine::Other => Err(Fail::new("another line")),
    }
}

/// A service over the store of a disk, with session 1 open.
fn opened(alloc: Global, disk: MemDisk) -> Result<Service<GatePages<MemDisk>>, Fail> {
    let Ok(store) = open_store(alloc, disk) else {
        return Err(Fail::new("no store"));
    };
    let Ok(mut service) = Service::new(alloc, store) else {
        return Err(Fail::new("no service"));
    };
    if !service.is_sound() || service.step_line(b"open 1 64").is_err() {
        return Err(Fail::new("no session"));
    }
    Ok(service)
}

/// Two slots of three have a value. The refusals are those of a bad line (2) and of a series that isn't there (8).
#[test]
fn reports_come_as_frames(rt: HostRuntime) -> Result<(), Fail> {
    let alloc = rt.alloc();
    let mut service = opened(alloc, behind(alloc, b"create s 0 1 0\nappend s 5 - 7\n")?)?;
    assert_eq!(rt; reported(alloc, &mut service, b"list")?, (8, 1, false));
    assert_eq!(rt;
        reported(alloc, &mut service, b"values s 0 3")?,
        (9, 2, false)
    );
    assert_eq!(rt;
        reported(alloc, &mut service, b"values t 0 3")?,
        (2, 8, false)
    );
    assert_eq!(rt;
        reported(alloc, &mut service, b"values s 0")?,
        (2, 2, false)
    );
    assert_eq!(rt;
        reported(alloc, &mut service, b"sum 1 s s 1 1 8 4 0 10 auto")?,
        (6, 2, false)
    );
    Ok(())
}

/// The disk of a series that has 130 values, each in a range of 4,096 slots of its own.
fn scattered(alloc: Global) -> Result<MemDisk, Fail> {
    let mut lines = Vec::from_slice(alloc, b"create s 0 1 0\n")?;
    for number in 0..130u32 {
        let line = format!(in alloc; "set s {} 1\n", number * 4_096)?;
        lines.extend_from_slice(line.as_bytes())?;
    }
    behind_on(alloc, empty_of(alloc, 512)?, lines.as_slice())
}

/// What is told of a step of the sweep of a rule.
fn swept<P: PageWorld>(
    alloc: Global,
    live: &mut Live<ServiceStepper<P>>,
    rule: &Rule,
) -> Result<(u8, u64, bool), Fail>
    requires { (its.view live.old).fit }
    ensures { OnOk result (its.view live.new).fit }
{
    if !live.is_idle() {
        return Err(Fail::new("a push is pending"));
    }
    match sweep_step(live, rule) {
        Ok(frame) => told(alloc, &frame),
        Err(_) => Err(Fail::new("no step")),
    }
}

/// A clear is made of each of the 130 values, and a step makes at most 64.
#[test]
fn a_sweep_goes_on_in_three_steps(rt: HostRuntime) -> Result<(), Fail> {
    let alloc = rt.alloc();
    let Ok(store) = open_store(alloc, world_of(alloc, scattered(alloc)?, &[], &[])?) else {
        return Err(Fail::new("no store"));
    };
    let Ok(service) = Service::new(alloc, store) else {
        return Err(Fail::new("no service"));
    };
    if !service.is_sound() {
        return Err(Fail::new("the store isn't sound"));
    }
    let mut live = Live::new(alloc, ServiceStepper::new(service));
    let rule = Rule::Before {
        name: Name::new(alloc, b"s")?,
        time: 1_000_000,
    };
    assert_eq!(rt; swept(alloc, &mut live, &rule)?, (10, 64, true));
    assert_eq!(rt; swept(alloc, &mut live, &rule)?, (10, 64, true));
    assert_eq!(rt; swept(alloc, &mut live, &rule)?, (10, 2, false));
    Ok(())
}
