// A sheet against a table and a segment: a node goes through its children, and each child is a node again.
#![tactic(auto)]

ghost use Rattle.std.specs.Prelude.{◌≡◌, length};
ghost use Rattle.meaning.specs.Limits.{positions_limit};
ghost use Rattle.judge_nodes.specs.parts.Checked.{NodeReady, NodeEnds, ChildrenReady, ChildrenEnds};

use crate::parts::{Begun, Ends, Node, Subtree, begin, closed, mark_of};
use limits::POSITIONS;

pub mod head;
pub mod marks;
pub mod numbers;
pub mod parts;
pub mod values;

// Whether the sheet describes this tree; with where sheet and tokens go on after it.
#[cycle(check_children_check_node)]
pub fn check_node(
    table: &[u8],
    rows: &[u8],
    inh: &[u8],
    syn: &[u8],
    offsets: &[u32],
    kinds: &[u8],
    values: &[i32],
    sheet: &[u8],
    tree: Subtree,
) -> Option<Ends>
    requires { NodeReady table.now rows.now inh.now syn.now offsets.now kinds.now values.now sheet.now tree.from tree.symbol }
    ensures { NodeEnds table.now rows.now inh.now syn.now offsets.now kinds.now values.now sheet.now tree.at tree.from tree.symbol tree.depth result }
{
    match begin(rows, inh, syn, kinds, values, sheet, tree)? {
        Begun::Token(ends) => Some(ends),
        Begun::Inside(node) => {
            let mut marks = [tree.at; POSITIONS];
            let ends = check_children(
                table, rows, inh, syn, offsets, kinds, values, sheet, node, &mut marks,
            )?;
            closed(table, rows, offsets, values, sheet, &marks, node, ends)
        }
    }
}

// Whether a tree for each symbol of the node's production is described behind its record, and where they end; the marks behind the first are then theirs.
#[cycle(check_children_check_node)]
pub fn check_children(
    table: &[u8],
    rows: &[u8],
    inh: &[u8],
    syn: &[u8],
    offsets: &[u32],
    kinds: &[u8],
    values: &[i32],
    sheet: &[u8],
    node: Node,
    marks: &mut [usize; POSITIONS],
) -> Option<Ends>
    requires { ChildrenReady table.now rows.now inh.now syn.now offsets.now kinds.now values.now sheet.now node.production node.from × (length marks.old ≡ positions_limit) }
    ensures { ChildrenEnds table.now rows.now inh.now syn.now offsets.now kinds.now values.now sheet.now
        node.production node.behind node.from node.depth marks.old marks.new result }
{
    let size = outline::size_of(rows, node.production);
    let mut ends = Ends {
        next: node.behind,
        end: node.from,
    };
    for k in 0..size {
        let symbol = outline::symbol_of(rows, node.production, k);
        marks[k + 1] = mark_of(sheet.len(), symbol, ends.next, ends.end);
        let tree = Subtree {
            at: ends.next,
            from: ends.end,
            symbol,
            depth: node.depth,
        };
        ends = check_node(table, rows, inh, syn, offsets, kinds, values, sheet, tree)?;
    }
    Some(ends)
}
