// The fields of a table, and the faults of tag 3. The definitions of all faults of tags 1 to 3 and 6 are here.
#![tactic(auto)]

ghost use Rattle.std.specs.Prelude.{◌≡◌, ◌+◌, ◌<◌, ◌≤◌, length, IfNone, IfSome};
ghost use Rattle.table_fields.specs.Field.{Whole, Short};
ghost use Rattle.table_fields.specs.Judge.{head_fault};
ghost use Rattle.refusals.specs.Numbers.{fault_or_zero};

use limits::{PRODUCTIONS, SYMBOLS};
use refusals::TableFault;

pub fn wide(x: u8) -> usize
    ensures { (result ≡ x) × (result < 256) }
{
    x as usize
}

// The size of the body of the field at an offset; none where the field is cut short.
#[tactic(auto, unfolding(crate::specs::Field::length_at))]
pub fn size_at(table: &[u8], at: usize) -> Option<usize>
    requires { at ≤ length table.now }
    ensures whole { IfSome result (λ size. Whole table.now at size) }
    ensures small { IfSome result (λ size. size < 65536) }
    ensures short { IfNone result (Short table.now at) }
{
    let left = table.len() - at;
    if left < 3 {
        return None;
    }
    let size = usize::from(table[at + 1]) * 256 + usize::from(table[at + 2]);
    if left - 3 < size { None } else { Some(size) }
}

// A field that is refused: its fault, and where it stands.
#[derive(Clone, Copy, Debug, PartialEq, Eq)]
pub struct Refused {
    pub fault: TableFault,
    pub at: usize,
}

// The lowest fault of the body of a tag 3 field after p others, but for its symbols on the right.
#[tactic(auto, unfolding(crate::specs::Judge::head_fault, crate::specs::Demand::at_most, crate::specs::Demand::equal, crate::specs::Demand::below))]
pub fn head_fault(nonterminals: usize, p: usize, body: &[u8]) -> Result<(), TableFault>
    ensures { fault_or_zero result ≡ head_fault nonterminals p body.now }
{
    if body.len() < 2 {
        return Err(TableFault::OutsideLimits);
    }
    let right = usize::from(body[1]);
    if SYMBOLS < right || body.len() != 2 + right || PRODUCTIONS <= p {
        return Err(TableFault::OutsideLimits);
    }
    if nonterminals <= usize::from(body[0]) {
        return Err(TableFault::Unknown);
    }
    Ok(())
}
