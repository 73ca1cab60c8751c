//! The functions that a caller sees. Each takes the stream out of its handle, and puts it back.

ghost use Rattle.std.specs.Prelude.{◌≡◌, ◌≢◌, None, IfSome, IsSome, true, false, length};
ghost use Rattle.client_exports.specs.Steps.{IsFresh};
ghost use Rattle.client_exports.specs.Answers.{Answers, Feeds, Nexted, Drawn, Covered, Spanned, TellColumns};

use crate::answer::Answer;
use crate::handle::Handle;
use crate::stream::Stream;
use std::alloc::Global;

/// Opens a stream; where the handle has one, that is closed first. Where there is no memory the handle is closed.
#[unsafe(no_mangle)]
pub extern "C" fn chart_open(alloc: Global, handle: &mut Handle) -> bool
    ensures opened { result ≡ true → IsSome handle.new.value × IfSome handle.new.value IsFresh }
    ensures failed { result ≡ false → handle.new.value ≡ None }
{
    drop(handle.take(alloc));
    let Ok(stream) = Stream::new(alloc) else {
        return false;
    };
    let Ok(boxed) = Box::new(alloc, stream) else {
        return false;
    };
    handle.put(alloc, boxed);
    true
}

/// Closes it: its memory goes back.
#[unsafe(no_mangle)]
pub extern "C" fn chart_close(alloc: Global, handle: &mut Handle)
    ensures closed { handle.new.value ≡ None }
{
    drop(handle.take(alloc));
}

/// Takes the next piece of the stream. Want of memory changes nothing.
#[unsafe(no_mangle)]
pub extern "C" fn chart_feed(alloc: Global, handle: &mut Handle, bytes: &[u8]) -> bool
    ensures { Feeds handle.old.value bytes.now result handle.new.value }
{
    let Some(mut boxed) = handle.take(alloc) else {
        return false;
    };
    let fed = boxed.feed(bytes).is_ok();
    handle.put(alloc, boxed);
    fed
}

/// Takes the next frame in hand, where none is, and tells it.
#[unsafe(no_mangle)]
pub extern "C" fn chart_next(alloc: Global, handle: &mut Handle, answer: &mut Answer)
    ensures { Answers Nexted handle.old.value answer.new handle.new.value }
{
    let Some(mut boxed) = handle.take(alloc) else {
        *answer = Answer::coded(7);
        return;
    };
    let taken = boxed.next();
    *answer = Answer::of_next(taken, boxed.frame(), boxed.pending());
    handle.put(alloc, boxed);
}

/// Has the client accept the frame in hand, and draws it; nothing is in hand then.
#[unsafe(no_mangle)]
pub extern "C" fn chart_draw(alloc: Global, handle: &mut Handle, answer: &mut Answer)
    ensures { Answers Drawn handle.old.value answer.new handle.new.value }
{
    let Some(mut boxed) = handle.take(alloc) else {
        *answer = Answer::coded(7);
        return;
    };
    let drawn = boxed.draw(alloc);
    *answer = Answer::of_drawn(drawn, boxed.picture().len() as u64);
    handle.put(alloc, boxed);
}

/// Draws the cover of the view in hand once so many of its coefficients are taken, or all of them.
#[unsafe(no_mangle)]
pub extern "C" fn chart_cover(alloc: Global, handle: &mut Handle, count: u32, answer: &mut Answer)
    ensures { Answers (Covered count) handle.old.value answer.new handle.new.value }
{
    let Some(mut boxed) = handle.take(alloc) else {
        *answer = Answer::coded(7);
        return;
    };
    let drawn = boxed.cover(alloc, count);
    *answer = Answer::of_drawn(drawn, boxed.picture().len() as u64);
    handle.put(alloc, boxed);
}

/// Copies the bytes of what was drawn last to where there is room for just as many. Else nothing is written.
#[unsafe(no_mangle)]
pub extern "C" fn chart_picture(alloc: Global, handle: &mut Handle, out: &mut [u8]) -> bool
    ensures kept { handle.new.value ≡ handle.old.value }
    ensures copied { result ≡ true → IsSome handle.old.value × IfSome handle.old.value (λ stream. out.new ≡ stream.picture) }
    ensures unwritten { result ≡ false → out.new ≡ out.old }
    ensures fits { result ≡ false → IfSome handle.old.value (λ stream. length stream.picture ≢ length out.old) }
{
    let Some(boxed) = handle.take(alloc) else {
        return false;
    };
    let fits = boxed.picture().len() == out.len();
    if fits {
        out.copy_from_slice(boxed.picture());
    }
    handle.put(alloc, boxed);
    fits
}

/// Tells the least and the greatest value of a column, from 0 at the left, of the picture that `chart_draw` drew
/// last, as the numbers `lo` and `hi` with code 1; or by code 0 that it has none, as no column has before the first
/// picture, and none beyond its width.
#[unsafe(no_mangle)]
pub extern "C" fn chart_column(alloc: Global, handle: &mut Handle, column: u32, answer: &mut Answer)
    ensures { Answers (Spanned column) handle.old.value answer.new handle.new.value }
{
    let Some(boxed) = handle.take(alloc) else {
        *answer = Answer::coded(7);
        return;
    };
    *answer = Answer::of_span(boxed.span_of(column));
    handle.put(alloc, boxed);
}

/// Tells of each column from 0 on, as many as there is room for, what `chart_column` tells of it, in one call. Where
/// the handle is closed nothing is written.
#[unsafe(no_mangle)]
pub extern "C" fn chart_columns(alloc: Global, handle: &mut Handle, out: &mut [Answer]) -> bool
    ensures kept { handle.new.value ≡ handle.old.value }
    ensures told { result ≡ true → IsSome handle.old.value × IfSome handle.old.value (λ stream. TellColumns stream.columns out.new) }
    ensures unwritten { result ≡ false → out.new ≡ out.old }
    ensures closed { result ≡ false → handle.old.value ≡ None }
{
    let Some(boxed) = handle.take(alloc) else {
        return false;
    };
    boxed.tell_columns(out);
    handle.put(alloc, boxed);
    true
}
