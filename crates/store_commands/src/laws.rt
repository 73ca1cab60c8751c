//! What follows of several commands together. The functions do nothing: their contracts are the laws.
ghost use Rattle.store_commands.specs.Laws.{CopiesExportTheSame, CopiesFit, CopiesHoldTheSame};
ghost use Rattle.store_commands.specs.Salvaged.{BooksHaveTheirSeries, HeldSeriesAreFit};

use block_disk::World;
use series_export::laws::{
    exports_are_read_back, exports_load_where_there_is_room, loads_hold_the_same,
};
use stored_book::laws::books_hold_their_series;

/// Where all that an export from the world `source` sent was loaded into a new series of the same start, step and
/// scale, from the world `old` to the world `new`, that one holds the same values at the same times; and an export
/// of it in any window sends the same bytes.
pub fn copies_hold_the_same<W: World>(source: &W, old: &W, new: &W)
    ensures copied { CopiesHoldTheSame (W.view source.now) (W.view old.now) (W.view new.now) }
    ensures same { CopiesExportTheSame (W.view new.now) }
{
    exports_are_read_back();
    loads_hold_the_same();
}

/// Where the disk of the world `old` holds a book with room for the series that an export from the world `source` sent whole,
/// and a new series of its start, step and scale, a load of these bytes finds no bad line and no set is refused: it ends with status 0
/// and the series holds the same, unless memory runs out or a call of the outside fails, or the bytes are more than 2^32.
pub fn copies_fit_where_there_is_room<W: World>(source: &W, old: &W, new: &W)
    ensures { CopiesFit (W.view source.now) (W.view old.now) (W.view new.now) }
{
    exports_are_read_back();
    exports_load_where_there_is_room();
}

/// Where a disk holds a book, it has each series of it, and a series that it has it has where pages fit: so what is said of an
/// export over a damaged store is so of a book's series.
pub fn books_have_their_series<W: World>(world: &W)
    ensures each { BooksHaveTheirSeries (W.view world.now) }
    ensures fit { HeldSeriesAreFit (W.view world.now) }
{
    books_hold_their_series();
}
