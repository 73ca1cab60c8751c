ghost use Rattle.std.specs.Prelude.{◌≡◌, ◌++◌, IfOk, IfErr, OnOk, codes};
ghost use Rattle.std.specs.Fmt.{decimal};
ghost use Rattle.chart_service.specs.declared.failure.ServeEnd.TheVariants.{NoMemory};
ghost use Rattle.chart_program.specs.declared.run_end.RunEnd.TheVariants.{Serve};
ghost use Rattle.draw_command.specs.Covers.{picture_bytes};
ghost use Rattle.served_fronts.specs.Texts.{line_of, live_line, text_of};

use crate::run_end::RunEnd;
use chart_client::Shown;
use chart_frames::Frame;
use line_raster::Bitmap;
use pbm_writer::pbm;
use std::alloc::Global;

/// The text of what a frame of so many bytes shows: a line, and behind that the picture, where there
/// is one.
pub fn reply_text(alloc: Global, shown: &Shown, sent: usize) -> Result<Vec<u8>, RunEnd>
    ensures text { IfOk result (λ text. text.items ≡ text_of shown.now.frame shown.now.bitmap sent) }
    ensures memory { IfErr result (λ end. end ≡ Serve NoMemory) }
{
    let mut text = line_of(alloc, &shown.frame, sent)?;
    add_picture(alloc, &shown.bitmap, &mut text)?;
    Ok(text)
}

/// Adds the picture, where there is one.
fn add_picture(alloc: Global, bitmap: &Option<Bitmap>, text: &mut Vec<u8>) -> Result<(), RunEnd>
    ensures text { OnOk result (text.new.items ≡ text.old.items ++ picture_bytes bitmap.now) }
    ensures memory { IfErr result (λ end. end ≡ Serve NoMemory) }
{
    let Some(bitmap) = bitmap else {
        return Ok(());
    };
    let picture = pbm(alloc, bitmap)?;
    text.extend_from_slice(picture.as_slice())?;
    Ok(())
}

/// The line of a frame of so many bytes.
#[tactic(auto, unfolding(served_fronts::specs::Texts::line_of))]
fn line_of(alloc: Global, frame: &Frame, sent: usize) -> Result<Vec<u8>, RunEnd>
    ensures line { IfOk result (λ text. text.items ≡ line_of frame.now sent) }
    ensures memory { IfErr result (λ end. end ≡ Serve NoMemory) }
{
    match frame {
        Frame::Done { slots } => done_line(alloc, *slots),
        Frame::Refused { number, a, b } => refused_line(alloc, *number, *a, *b),
        Frame::Opened { session, cache } => opened_line(alloc, *session, *cache),
        Frame::Closed { session } => closed_line(alloc, *session),
        Frame::View(view) => view_line(alloc, view.session, sent),
        Frame::Rows(rows) => view_line(alloc, rows.session, sent),
        Frame::Live { session, on } => live_line(alloc, *session, *on),
        Frame::Report(_) => Ok(Vec::new(alloc)),
    }
}

fn done_line(alloc: Global, slots: u64) -> Result<Vec<u8>, RunEnd>
    ensures line { IfOk result (λ text. text.items ≡ codes "done " ++ (decimal slots ++ codes "\n")) }
    ensures memory { IfErr result (λ end. end ≡ Serve NoMemory) }
{
    let line = format!(in alloc; "done {slots}\n")?;
    Ok(Vec::from_slice(alloc, line.as_bytes())?)
}

fn refused_line(alloc: Global, number: u8, a: u64, b: u64) -> Result<Vec<u8>, RunEnd>
    ensures line { IfOk result (λ text. text.items ≡ codes
        "refused " ++ (decimal number ++ (codes " " ++ (decimal a ++ (codes " " ++ (decimal b ++ codes "\n")))))) }
    ensures memory { IfErr result (λ end. end ≡ Serve NoMemory) }
{
    let line = format!(in alloc; "refused {number} {a} {b}\n")?;
    Ok(Vec::from_slice(alloc, line.as_bytes())?)
}

fn opened_line(alloc: Global, session: u32, cache: u32) -> Result<Vec<u8>, RunEnd>
    ensures line { IfOk result (λ text. text.items ≡ codes "opened " ++ (decimal session ++ (codes " " ++ (decimal cache ++ codes "\n")))) }
    ensures memory { IfErr result (λ end. end ≡ Serve NoMemory) }
{
    let line = format!(in alloc; "opened {session} {cache}\n")?;
    Ok(Vec::from_slice(alloc, line.as_bytes())?)
}

fn closed_line(alloc: Global, session: u32) -> Result<Vec<u8>, RunEnd>
    ensures line { IfOk result (λ text. text.items ≡ codes "closed " ++ (decimal session ++ codes "\n")) }
    ensures memory { IfErr result (λ end. end ≡ Serve NoMemory) }
{
    let line = format!(in alloc; "closed {session}\n")?;
    Ok(Vec::from_slice(alloc, line.as_bytes())?)
}

fn live_line(alloc: Global, session: u32, on: bool) -> Result<Vec<u8>, RunEnd>
    ensures line { IfOk result (λ text. text.items ≡ live_line session on) }
    ensures memory { IfErr result (λ end. end ≡ Serve NoMemory) }
{
    if on {
        on_line(alloc, session)
    } else {
        off_line(alloc, session)
    }
}

fn on_line(alloc: Global, session: u32) -> Result<Vec<u8>, RunEnd>
    ensures line { IfOk result (λ text. text.items ≡ codes "live " ++ (decimal session ++ codes " on\n")) }
    ensures memory { IfErr result (λ end. end ≡ Serve NoMemory) }
{
    let line = format!(in alloc; "live {session} on\n")?;
    Ok(Vec::from_slice(alloc, line.as_bytes())?)
}

fn off_line(alloc: Global, session: u32) -> Result<Vec<u8>, RunEnd>
    ensures line { IfOk result (λ text. text.items ≡ codes "live " ++ (decimal session ++ codes " off\n")) }
    ensures memory { IfErr result (λ end. end ≡ Serve NoMemory) }
{
    let line = format!(in alloc; "live {session} off\n")?;
    Ok(Vec::from_slice(alloc, line.as_bytes())?)
}

fn view_line(alloc: Global, session: u32, sent: usize) -> Result<Vec<u8>, RunEnd>
    ensures line { IfOk result (λ text. text.items ≡ codes
        "view " ++ (decimal session ++ (codes " sent " ++ (decimal sent ++ codes "\n")))) }
    ensures memory { IfErr result (λ end. end ≡ Serve NoMemory) }
{
    let line = format!(in alloc; "view {session} sent {sent}\n")?;
    Ok(Vec::from_slice(alloc, line.as_bytes())?)
}
