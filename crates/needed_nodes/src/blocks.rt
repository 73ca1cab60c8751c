ghost use Rattle.std.specs.Prelude.{◌≡◌, ◌<◌, None, Some, IfOk, All, length, slice_set};
ghost use Rattle.needed_nodes.specs.Blocks.{entry};
ghost use Rattle.needed_nodes.specs.Entering.{with_block, both_spans};

use om3_coeff::{Key, Span};
use std::alloc::{AllocError, Global};

/// A largest key within a column that has a stored value, and its span.
#[derive(Clone, Copy)]
pub(crate) struct Block {
    pub(crate) key: Key,
    pub(crate) span: Span,
}

/// The first and the last block of a column, and the span of all of them.
#[derive(Clone, Copy)]
pub(crate) struct Blocks {
    pub(crate) first: Block,
    pub(crate) last: Block,
    pub(crate) span: Span,
}

/// Takes in a block that lies behind the column's other ones.
pub(crate) fn enter(table: &mut [Option<Blocks>], column: u16, block: Block)
    requires { column < length table.old }
    ensures { table.new ≡ slice_set table.old column (Some (with_block (entry table.old column) block)) }
{
    let place = usize::from(column);
    table[place] = Some(with_block(table[place], block));
}

fn with_block(blocks: Option<Blocks>, block: Block) -> Blocks
    ensures { result ≡ with_block blocks block }
{
    match blocks {
        None => Blocks {
            first: block,
            last: block,
            span: block.span,
        },
        Some(blocks) => Blocks {
            first: blocks.first,
            last: block,
            span: both(blocks.span, block.span),
        },
    }
}

/// The span of two ranges together.
fn both(a: Span, b: Span) -> Span
    ensures { result ≡ both_spans a b }
{
    Span {
        min: a.min.min(b.min),
        max: a.max.max(b.max),
    }
}

/// A table in which no column has a block yet.
pub(crate) fn empty_table(alloc: Global, columns: u16) -> Result<Vec<Option<Blocks>>, AllocError>
    ensures sized { IfOk result (λ table. length table.items ≡ columns) }
    ensures empty { IfOk result (λ table. All (λ entry. entry ≡ None) table.items) }
{
    let mut table = Vec::with_capacity(alloc, usize::from(columns))?;
    for _ in 0..columns {
        table.push(None)?;
    }
    Ok(table)
}
