ghost use Rattle.std.specs.Prelude.{◌≡◌, ◌⊎◌, ◌≤◌, length, Ok, Err, IfOk, IfErr};
ghost use Rattle.request_lines.specs.declared.line_kinds.LineKind.TheVariants.{Create, Append, Set, Clear, Open, View, Zoom, Pan, Close};
ghost use Rattle.request_lines.specs.declared.requests.Request.{Request};
ghost use Rattle.request_lines.specs.declared.line_errors.LineError.TheVariants.{NoMemory};
ghost use Rattle.request_lines.specs.Spelling.{Spells};
ghost use Rattle.request_lines.specs.Requests.{IsRequest, IsInRange, RefusesLine, read_line, ReadsAs, Reads};

use crate::line_errors::LineError;
use crate::line_kinds::LineKind;
use crate::readers::Reader;
use crate::requests::Request;
use series_book::Edit;
use std::alloc::Global;

/// The request that a line spells. `BadLine` comes exactly where the line spells none, with the
/// offset of the first token that isn't what its place allows.
pub fn parse_line(alloc: Global, line: &[u8]) -> Result<Request, LineError>
    requires { length line.now ≤ 8192 }
    ensures ok { IfOk result (IsRequest line.now) }
    ensures in_range { IfOk result IsInRange }
    ensures err { IfErr result (RefusesLine line.now) }
    ensures reading { ReadsAs (read_line line.now) result }

    // The answer is a request exactly where the line spells it, but for want of memory.
    ensures spelt { IfOk result (λ request. Spells request line.now) }
    ensures only { (request : Request) → Spells request line.now → (result ≡ Ok request) ⊎ (result ≡ Err NoMemory) }
{
    let mut reader = Reader::new(line);
    let word = reader.word();
    match LineKind::of(word) {
        Some(kind) => read(kind, alloc, &mut reader),
        None => Err(LineError::BadLine { at: 0 }),
    }
}

/// Reads the tokens after the first word of a line of this kind.
fn read(kind: LineKind, alloc: Global, reader: &mut Reader) -> Result<Request, LineError>
    ensures reads { Reads kind reader.old result }
    ensures in_range { IfOk result IsInRange }
{
    match kind {
        LineKind::Create => create(alloc, reader),
        LineKind::Append => append(alloc, reader),
        LineKind::Set => set(alloc, reader),
        LineKind::Clear => clear(alloc, reader),
        LineKind::Open => open(reader),
        LineKind::View => view(alloc, reader),
        LineKind::Zoom => zoom(reader),
        LineKind::Pan => pan(reader),
        LineKind::Close => close(reader),
    }
}

fn create(alloc: Global, reader: &mut Reader) -> Result<Request, LineError>
    ensures reads { Reads Create reader.old result }
    ensures in_range { IfOk result IsInRange }
{
    let name = reader.name(alloc)?;
    let start = reader.start()?;
    let step = reader.step()?;
    let scale = reader.scale()?;
    reader.end()?;
    Ok(Request::Edit(Edit::Create {
        name,
        start,
        step,
        scale,
    }))
}

fn append(alloc: Global, reader: &mut Reader) -> Result<Request, LineError>
    ensures reads { Reads Append reader.old result }
    ensures in_range { IfOk result IsInRange }
{
    let name = reader.name(alloc)?;
    let values = reader.values(alloc, true)?;
    Ok(Request::Edit(Edit::Append { name, values }))
}

fn set(alloc: Global, reader: &mut Reader) -> Result<Request, LineError>
    ensures reads { Reads Set reader.old result }
    ensures in_range { IfOk result IsInRange }
{
    let name = reader.name(alloc)?;
    let time = reader.integer()?;
    let values = reader.values(alloc, false)?;
    Ok(Request::Edit(Edit::Set { name, time, values }))
}

fn clear(alloc: Global, reader: &mut Reader) -> Result<Request, LineError>
    ensures reads { Reads Clear reader.old result }
    ensures in_range { IfOk result IsInRange }
{
    let name = reader.name(alloc)?;
    let time = reader.integer()?;
    let count = reader.natural()?;
    reader.end()?;
    Ok(Request::Edit(Edit::Clear { name, time, count }))
}

fn open(reader: &mut Reader) -> Result<Request, LineError>
    ensures reads { Reads Open reader.old result }
    ensures in_range { IfOk result IsInRange }
{
    let session = reader.session()?;
    if !reader.has_token() {
        return Ok(Request::Open {
            session,
            cache: None,
        });
    }
    let cache = reader.natural()?;
    reader.end()?;
    Ok(Request::Open {
        session,
        cache: Some(cache),
    })
}

fn view(alloc: Global, reader: &mut Reader) -> Result<Request, LineError>
    ensures reads { Reads View reader.old result }
    ensures in_range { IfOk result IsInRange }
{
    let session = reader.session()?;
    let name = reader.name(alloc)?;
    let w = reader.natural()?;
    let h = reader.natural()?;
    let t0 = reader.integer()?;
    let t1 = reader.integer()?;
    let range = reader.range()?;
    let filter = reader.filter(alloc)?;
    Ok(Request::View {
        session,
        name,
        w,
        h,
        t0,
        t1,
        range,
        filter,
    })
}

fn zoom(reader: &mut Reader) -> Result<Request, LineError>
    ensures reads { Reads Zoom reader.old result }
    ensures in_range { IfOk result IsInRange }
{
    let session = reader.session()?;
    let t0 = reader.integer()?;
    let t1 = reader.integer()?;
    reader.end()?;
    Ok(Request::Zoom { session, t0, t1 })
}

fn pan(reader: &mut Reader) -> Result<Request, LineError>
    ensures reads { Reads Pan reader.old result }
    ensures in_range { IfOk result IsInRange }
{
    let session = reader.session()?;
    let by = reader.integer()?;
    reader.end()?;
    Ok(Request::Pan { session, by })
}

fn close(reader: &mut Reader) -> Result<Request, LineError>
    ensures reads { Reads Close reader.old result }
    ensures in_range { IfOk result IsInRange }
{
    let session = reader.session()?;
    reader.end()?;
    Ok(Request::Close { session })
}
