ghost use Rattle.std.specs.Prelude.{◌≡◌, ◌+◌, ◌≤◌, IfErr, OnOk, length, ◌≢◌};
ghost use Rattle.om3_coeff.specs.declared.errors.NodeError.TheVariants.{DiskFault};
ghost use Rattle.om3_coeff.specs.View.{MayAsk};
ghost use Rattle.needed_nodes.specs.Ranks.{AreRanksOf, IsTopmost};
ghost use Rattle.needed_nodes.specs.Serving.{IsReady, IsCauseOf};
ghost use Rattle.needed_nodes.specs.Blocks.{most_cut, Finds};

use crate::asking::ask;
use crate::blocks::{Block, Blocks, enter};
use crate::scan_of::ScanOf;
use crate::window::{Place, Ranks, Window};
use om3_coeff::{Coef, Key, Nodes, Span};

/// Asks the cut keys at or below a key with these ranks and this span, keeps each with its coefficient,
/// and enters the blocks there into the table, which has a place for each column.
pub(crate) fn find_blocks<N: Nodes>(
    nodes: &mut N,
    window: &Window,
    key: Key,
    ranks: Ranks,
    span: Option<Span>,
    keys: &mut Vec<(Key, Coef)>,
    table: &mut [Option<Blocks>],
) -> Result<(), ScanOf>
    requires ready { IsReady (N.view nodes.old) window.now key span }
    requires follows { MayAsk (N.view nodes.old) key }
    requires top { IsTopmost window.now key }
    requires sized { length table.old ≡ window.now.grid.w }
    requires ranked { AreRanksOf window.now key ranks }

    ensures fit { (N.view nodes.new).fit }
    ensures kept { N.keeps nodes.old nodes.new }
    ensures reads { (N.view nodes.new).reads ≤ (N.view nodes.old).reads + most_cut window.now key }
    ensures faults { (N.view nodes.old).faults ≤ (N.view nodes.new).faults }
    ensures cause { IfErr result (IsCauseOf (N.view nodes.old) (N.view nodes.new) window.now) }
    ensures quiet { OnOk result ((N.view nodes.new).faults ≡ (N.view nodes.old).faults) }
    ensures quiet_err { IfErr result (λ e. e ≢ ScanOf.Node DiskFault → (N.view nodes.new).faults ≡ (N.view nodes.old).faults) }
    ensures found { OnOk result (Finds (N.view nodes.old)
        (N.view nodes.new) window.now key keys.old.items keys.new.items table.old table.new) }
{
    let Some(span) = span else {
        return Ok(());
    };
    match window.place_of(ranks) {
        Place::Outside => Ok(()),
        Place::Within(column) => {
            enter(table, column, Block { key, span });
            Ok(())
        }
        Place::Cut => {
            let node = ask(nodes, window, key, span)?;
            keys.push((key, node.coef))?;
            let (low, high) = window.ranks_of_halves(key, ranks);
            find_blocks(nodes, window, key.left(), low, node.left, keys, table)?;
            find_blocks(nodes, window, key.right(), high, node.right, keys, table)?;
            Ok(())
        }
    }
}
