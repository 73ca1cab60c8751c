ghost use Rattle.std.specs.Prelude.{◌≡◌, ◌+◌, ◌≤◌, ◌<◌, ◌%◌, ◌-ℤ◌, pos, IfOk, OnOk, unsigned_abs, IsTrue};
ghost use Rattle.series_book.specs.Names.{is_name};
ghost use Rattle.request_lines.specs.Requests.{IsInRange};
ghost use Rattle.demo_workload.specs.Draws.{walked};
ghost use Rattle.demo_workload.specs.Workload.{name, creates, opens, appends, sets, views, drawn_twice};

use crate::draws::Walk;
use request_lines::{RangeWord, Request};
use series_book::{Edit, Name, NameError, Values};
use std::alloc::{AllocError, Global};

/// The session of all views.
const SESSION: u32 = 1;

/// The name of the series.
fn name(alloc: Global) -> Result<Name, AllocError>
    ensures name { IfOk result (λ n. n ≡ name) }
    ensures named { IfOk result (λ n. IsTrue (is_name n)) }
{
    match Name::new(alloc, b"demo") {
        Ok(name) => Ok(name),
        Err(NameError::NotAName) => unreachable!(),
        Err(NameError::NoMemory) => Err(AllocError),
    }
}

/// The creation of the series.
pub(crate) fn creates(alloc: Global) -> Result<Request, AllocError>
    ensures request { IfOk result (λ request. request ≡ creates) }
    ensures in_range { IfOk result IsInRange }
{
    let name = name(alloc)?;
    Ok(Request::Edit(Edit::Create {
        name,
        start: 0,
        step: 1,
        scale: 0,
    }))
}

/// The opening of the session.
pub(crate) fn opens() -> Request
    ensures request { result ≡ opens }
    ensures in_range { IsInRange result }
{
    Request::Open {
        session: SESSION,
        cache: None,
    }
}

/// The append of a round. After want of memory the walk may have gone on.
pub(crate) fn appends(alloc: Global, walk: &mut Walk) -> Result<Request, AllocError>
    requires { unsigned_abs walk.old.value + 25600 ≤ 104857600 }
    ensures request { IfOk result (λ request. request ≡ appends walk.old) }
    ensures in_range { IfOk result IsInRange }
    ensures walk { OnOk result (walk.new ≡ walked 256 walk.old) }
    ensures near { OnOk result (unsigned_abs walk.new.value ≤ unsigned_abs walk.old.value + 25600) }
{
    let name = name(alloc)?;
    let values = walk.values(alloc)?;
    Ok(Request::Edit(Edit::Append {
        name,
        values: Values::from_vec(values),
    }))
}

/// The set of one of so many slots. After want of memory the walk may have gone on.
pub(crate) fn sets(alloc: Global, slots: u64, walk: &mut Walk) -> Result<Request, AllocError>
    requires some { 0 < slots }
    ensures request { IfOk result (λ request. request ≡ sets slots walk.old) }
    ensures in_range { IfOk result IsInRange }
    ensures walk { OnOk result (walk.new ≡ drawn_twice walk.old) }
{
    let name = name(alloc)?;
    let time = i128::from(walk.draw() % slots);
    let value = set_value(walk.draw());
    Ok(Request::Edit(Edit::Set {
        name,
        time,
        values: Values::from_vec(vec![in alloc; Some(value)]?),
    }))
}

/// The value of a set, by a draw.
fn set_value(draw: u64) -> i128
    ensures { result ≡ pos (draw % 2001) -ℤ pos 1000 }
{
    i128::from(draw % 2_001) - 1_000
}

/// The view of so many slots.
pub(crate) fn views(alloc: Global, slots: u64) -> Result<Request, AllocError>
    ensures request { IfOk result (λ request. request ≡ views slots) }
    ensures in_range { IfOk result IsInRange }
{
    let name = name(alloc)?;
    Ok(Request::View {
        session: SESSION,
        name,
        w: 640,
        h: 240,
        t0: 0,
        t1: i128::from(slots),
        range: RangeWord::Auto,
        filter: None,
    })
}
