// The recursive evaluator: a node goes through its children, and each child is a node again. It makes the machine's own moves on stacks of its own and writes a record for each node that it leaves.
// The run's numbers are in lent cells, and the moves in functions that both evaluators call: so the frames of the two that call each other are small (docs/SHEETS.md).
// The depth left, which is how many of the lent places do not wait yet, and the symbols left of a right side fall together.
ghost use Rattle.sheet.specs.tree.steps.Walks.{NodeIn, NodeOut, ListIn, ListOut};

use limits::{PLACES, REGISTERS, SYMBOLS};

pub mod moves;
pub mod nodes;
pub mod steps;
pub mod written;

// A node: it is predicted, goes through its children, and is left. Answers whether no move was refused.
#[cycle(children_node)]
pub fn node(
    registers: &mut [i64; REGISTERS],
    places: &mut [u32; PLACES],
    program: &[u32],
    kinds: &[u8],
    values: &[i32],
    sheet: &mut [u8],
    numbers: &mut [u64; 8],
) -> bool
    requires { NodeIn program.now kinds.now values.now registers.old places.old numbers.old }
    ensures { NodeOut program.now kinds.now values.now registers.old places.old numbers.old sheet.old registers.new places.new sheet.new result numbers.new }
{
    let before = numbers[0];
    let at = numbers[5] as usize;
    if crate::tree::steps::enter(registers, places, program, kinds, values, numbers) {
        if 5 <= crate::tree::steps::operation(program, numbers) {
            return crate::tree::steps::leave(
                registers, places, program, sheet, numbers, at, before,
            );
        }
        if children(
            registers, places, program, kinds, values, sheet, numbers, SYMBOLS,
        ) {
            return crate::tree::steps::leave(
                registers, places, program, sheet, numbers, at, before,
            );
        }
    }
    false
}

// The children that are left, at least one: the first, a node or a token, then the rest.
#[cycle(children_node)]
fn children(
    registers: &mut [i64; REGISTERS],
    places: &mut [u32; PLACES],
    program: &[u32],
    kinds: &[u8],
    values: &[i32],
    sheet: &mut [u8],
    numbers: &mut [u64; 8],
    symbols_left: usize,
) -> bool
    requires { ListIn program.now kinds.now values.now registers.old places.old numbers.old symbols_left }
    ensures { ListOut program.now kinds.now values.now registers.old places.old numbers.old sheet.old registers.new places.new sheet.new result numbers.new }
{
    let passed = if crate::tree::steps::operation(program, numbers) == 3 {
        node(registers, places, program, kinds, values, sheet, numbers)
    } else {
        crate::tree::steps::advance(registers, places, program, kinds, values, numbers)
    };
    if passed {
        if 4 < crate::tree::steps::operation(program, numbers) {
            return true;
        }
        return children(
            registers,
            places,
            program,
            kinds,
            values,
            sheet,
            numbers,
            symbols_left - 1,
        );
    }
    false
}
