// A sheet under an accepted table: it describes a tree of the start symbol over all tokens, and nothing is after it.
#![tactic(auto)]

ghost use Rattle.std.specs.Prelude.{◌<◌};
ghost use Rattle.judge_sheet.specs.Judged.{RootSettled, SheetReady, SheetSettled};

use judge_nodes::parts::{Ends, Subtree};
use limits::DEPTH;

// The root's value; kinds and values are not equally many (38); the sheet is not accepted (43); or the table is refused.
#[derive(Clone, Copy)]
pub enum Judgement {
    Value(i64),
    Uneven,
    Wrong,
    Unusable { number: u32, offset: u32 },
}

// By where the root's tree ends, if it is described: it is over all tokens, and nothing is after it.
fn judge_root(
    root: Option<Ends>,
    kinds: &[u8],
    values: &[i32],
    sheet: &[u8],
    res: usize,
) -> Judgement
    requires { res < 256 }
    ensures { RootSettled kinds.now values.now sheet.now res root result }
{
    match root {
        None => Judgement::Wrong,
        Some(ends) => {
            if ends.next != sheet.len() {
                return Judgement::Wrong;
            }
            if ends.end != kinds.len() {
                return Judgement::Wrong;
            }
            Judgement::Value(judge_nodes::marks::read_mark(sheet, values, 0, res))
        }
    }
}

// A sheet by the outline of an accepted table: it describes a tree of the start symbol over all tokens, and nothing is after it.
pub fn judge_sheet(
    table: &[u8],
    rows: &[u8],
    inherited: &[u8],
    synthesized: &[u8],
    offsets: &[u32],
    kinds: &[u8],
    values: &[i32],
    sheet: &[u8],
    start: usize,
    res: usize,
) -> Judgement
    requires { SheetReady table.now rows.now inherited.now synthesized.now offsets.now kinds.now values.now sheet.now start res }
    ensures { SheetSettled table.now rows.now inherited.now synthesized.now offsets.now kinds.now values.now sheet.now start res result }
{
    let symbol = (128 + start) as u8;
    let tree = Subtree {
        at: 0,
        from: 0,
        symbol,
        depth: DEPTH,
    };
    let root = judge_nodes::check_node(
        table,
        rows,
        inherited,
        synthesized,
        offsets,
        kinds,
        values,
        sheet,
        tree,
    );
    judge_root(root, kinds, values, sheet, res)
}
