// How far the frame at the front of a stream is read.
ghost use Rattle.std.specs.Prelude.{◌≡◌, IfOk, IfErr, OnOk, OnErr};
ghost use Rattle.chart_frames.specs.Reading.{read};
ghost use Rattle.chart_frames.specs.Fields.{frame_fields};
ghost use Rattle.chart_frames.specs.Items.{Fails};
ghost use Rattle.chart_frames.specs.Places.{Opens, Reached, ViewReached, RowsReached, IsWhole, AreAll, Leaves, view_frame, rows_frame};
ghost use Rattle.chart_frames.specs.declared.place.Place.TheVariants.{Start};

use crate::coefficients::fill_coefs;
use crate::frame::{Frame, RowsFrame, ViewFrame};
use crate::item_stop::ItemStop;
use crate::limits::{COEF_BYTES, ROW_BYTES, ROWS_HEAD_BYTES, VIEW_HEAD_BYTES};
use crate::opening::{Opening, opening_at};
use crate::rows::fill_rows;
use m4_groups::{Row, Rows};
use om3_coeff::{Coef, Coefs, Key};
use std::alloc::Global;
use std::mem;

/// How far the frame at the front is read.
#[derive(Drop)]
pub enum Place {
    /// Nothing is known of it.
    Start,
    /// A view: its fields before the coefficients, and so many of these.
    View(ViewFrame, Vec<(Key, Coef)>),
    /// Rows: the fields before them, and so many of these.
    Rows(RowsFrame, Vec<Row>),
}

// Reads the coefficients of a view on. How many bytes are left behind the last.
fn more_coefs(
    view: &ViewFrame,
    coefs: &mut Vec<(Key, Coef)>,
    bytes: &[u8],
) -> Result<usize, ItemStop>
    requires { ViewReached bytes.now view.now coefs.old.items }
    ensures reached { ViewReached bytes.now view.now coefs.new.items }
    ensures ok { IfOk result (λ left. IsWhole bytes.now view.now coefs.new.items left) }
    ensures err { IfErr result (λ e. Fails e (read frame_fields bytes.now)) }
{
    let (_, rest) = bytes.split_at(VIEW_HEAD_BYTES + COEF_BYTES * coefs.len());
    match fill_coefs(coefs, view.slots, view.count, rest) {
        Ok(left) => Ok(left.len()),
        Err(stop) => Err(stop),
    }
}

// Reads the rows of a frame on. How many bytes are left behind the last.
fn more_rows(frame: &RowsFrame, rows: &mut Vec<Row>, bytes: &[u8]) -> Result<usize, ItemStop>
    requires { RowsReached bytes.now frame.now rows.old.items }
    ensures reached { RowsReached bytes.now frame.now rows.new.items }
    ensures ok { IfOk result (λ left. AreAll bytes.now frame.now rows.new.items left) }
    ensures err { IfErr result (λ e. Fails e (read frame_fields bytes.now)) }
{
    let (_, rest) = bytes.split_at(ROWS_HEAD_BYTES + ROW_BYTES * rows.len());
    match fill_rows(rows, frame.w, frame.count, rest) {
        Ok(left) => Ok(left.len()),
        Err(stop) => Err(stop),
    }
}

// The view with all its coefficients.
fn whole_view(view: ViewFrame, coefs: Vec<(Key, Coef)>) -> Frame
    ensures { result ≡ view_frame view coefs.items }
{
    let mut view = view;
    view.coefs = Coefs::from_vec(coefs);
    Frame::View(view)
}

// The frame with all its rows.
fn whole_rows(frame: RowsFrame, rows: Vec<Row>) -> Frame
    ensures { result ≡ rows_frame frame rows.items }
{
    let mut frame = frame;
    frame.rows = Rows::from_vec(rows);
    Frame::Rows(frame)
}

// Reads a view on, and gives it once it is whole, with the number of bytes behind it.
fn view_on(
    place: &mut Place,
    view: ViewFrame,
    coefs: Vec<(Key, Coef)>,
    bytes: &[u8],
) -> Result<(Frame, usize), ItemStop>
    requires { ViewReached bytes.now view coefs.items }
    ensures ok { IfOk result (λ x. Leaves bytes.now x.0 x.1) }
    ensures start { OnOk result (place.new ≡ Start) }
    ensures reached { OnErr result (Reached bytes.now place.new) }
    ensures err { IfErr result (λ e. Fails e (read frame_fields bytes.now)) }
{
    let mut coefs = coefs;
    match more_coefs(&view, &mut coefs, bytes) {
        Ok(left) => {
            *place = Place::Start;
            Ok((whole_view(view, coefs), left))
        }
        Err(stop) => {
            *place = Place::View(view, coefs);
            Err(stop)
        }
    }
}

// Reads rows on, and gives the frame once it is whole, with the number of bytes behind it.
fn rows_on(
    place: &mut Place,
    frame: RowsFrame,
    rows: Vec<Row>,
    bytes: &[u8],
) -> Result<(Frame, usize), ItemStop>
    requires { RowsReached bytes.now frame rows.items }
    ensures ok { IfOk result (λ x. Leaves bytes.now x.0 x.1) }
    ensures start { OnOk result (place.new ≡ Start) }
    ensures reached { OnErr result (Reached bytes.now place.new) }
    ensures err { IfErr result (λ e. Fails e (read frame_fields bytes.now)) }
{
    let mut rows = rows;
    match more_rows(&frame, &mut rows, bytes) {
        Ok(left) => {
            *place = Place::Start;
            Ok((whole_rows(frame, rows), left))
        }
        Err(stop) => {
            *place = Place::Rows(frame, rows);
            Err(stop)
        }
    }
}

// Reads a frame on behind its opening, where rest is.
fn opened_on(
    alloc: Global,
    place: &mut Place,
    opening: Opening,
    rest: &[u8],
    bytes: &[u8],
) -> Result<(Frame, usize), ItemStop>
    requires start { place.old ≡ Start }
    requires opens { Opens bytes.now opening rest.now }
    ensures ok { IfOk result (λ x. Leaves bytes.now x.0 x.1) }
    ensures start { OnOk result (place.new ≡ Start) }
    ensures reached { OnErr result (Reached bytes.now place.new) }
    ensures err { IfErr result (λ e. Fails e (read frame_fields bytes.now)) }
{
    match opening {
        Opening::Whole(frame) => Ok((frame, rest.len())),
        Opening::View(view) => view_on(place, view, Vec::new(alloc), bytes),
        Opening::Rows(frame) => rows_on(place, frame, Vec::new(alloc), bytes),
    }
}

// Reads a frame of which nothing is known.
fn start_on(alloc: Global, place: &mut Place, bytes: &[u8]) -> Result<(Frame, usize), ItemStop>
    requires { place.old ≡ Start }
    ensures ok { IfOk result (λ x. Leaves bytes.now x.0 x.1) }
    ensures start { OnOk result (place.new ≡ Start) }
    ensures reached { OnErr result (Reached bytes.now place.new) }
    ensures err { IfErr result (λ e. Fails e (read frame_fields bytes.now)) }
{
    match opening_at(alloc, bytes) {
        Ok((opening, rest)) => opened_on(alloc, place, opening, rest, bytes),
        Err(stop) => Err(stop),
    }
}

/// The frame at the front of the bytes, and how many bytes stand behind it.
pub fn frame_at(alloc: Global, place: &mut Place, bytes: &[u8]) -> Result<(Frame, usize), ItemStop>
    requires { Reached bytes.now place.old }
    ensures ok { IfOk result (λ x. Leaves bytes.now x.0 x.1) }
    ensures start { OnOk result (place.new ≡ Start) }
    ensures reached { OnErr result (Reached bytes.now place.new) }
    ensures err { IfErr result (λ e. Fails e (read frame_fields bytes.now)) }
{
    match mem::replace(place, Place::Start) {
        Place::Start => start_on(alloc, place, bytes),
        Place::View(view, coefs) => view_on(place, view, coefs, bytes),
        Place::Rows(frame, rows) => rows_on(place, frame, rows, bytes),
    }
}
