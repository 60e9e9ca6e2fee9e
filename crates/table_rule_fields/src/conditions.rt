// The faults of a condition.
ghost use Rattle.std.specs.Prelude.{◌≡◌, ◌<◌, ◌≤◌};
ghost use Rattle.refusals.specs.Numbers.{fault_or_zero};
ghost use Rattle.meaning.specs.Limits.{symbols_limit};
ghost use Rattle.table_rules.specs.Rule.{in_order_value, range_fault, at_most_fault, condition_fault};

use limits::{CONDITIONS, POSITIONS};
use refusals::TableFault;
use table_rules::Class;

// Whether the first of two numbers in two's complement is at most the second.
pub fn in_order(x: usize, y: usize) -> bool
    requires { (x < 4294967296) × (y < 4294967296) }
    ensures { result ≡ in_order_value x y }
{
    (x + 2147483648) % 4294967296 <= (y + 2147483648) % 4294967296
}

#[tactic(auto, unfolding(table_rules::specs::Rule::range_fault, table_rules::specs::Rule::class_fault, table_fields::specs::Demand::equal, table_fields::specs::Demand::differs, table_fields::specs::Demand::holds))]
pub fn range_fault(
    width: usize,
    inh: &[u8; POSITIONS],
    syn: &[u8; POSITIONS],
    body: &[u8],
) -> Result<(), TableFault>
    requires { width ≤ symbols_limit }
    ensures { fault_or_zero result ≡ range_fault width inh.now syn.now body.now }
{
    if body.len() != 11 {
        return Err(TableFault::OutsideLimits);
    }
    match table_rules::class_in(width, inh, syn, body, 1) {
        Class::Unknown => return Err(TableFault::Unknown),
        Class::Output => return Err(TableFault::WrongSide),
        Class::Input => {}
    }
    if in_order(table_rules::four_at(body, 3), table_rules::four_at(body, 7)) {
        Ok(())
    } else {
        Err(TableFault::LowAboveHigh)
    }
}

// A comparison, whose body has the length `size`.
#[tactic(auto, unfolding(table_rules::specs::Rule::at_most_fault, table_fields::specs::Demand::equal, table_fields::specs::Demand::differs))]
pub fn at_most_fault(
    size: usize,
    width: usize,
    inh: &[u8; POSITIONS],
    syn: &[u8; POSITIONS],
    body: &[u8],
) -> Result<(), TableFault>
    requires { (5 ≤ size) × (width ≤ symbols_limit) }
    ensures { fault_or_zero result ≡ at_most_fault size width inh.now syn.now body.now }
{
    if body.len() != size {
        return Err(TableFault::OutsideLimits);
    }
    let class = table_rules::class_in(width, inh, syn, body, 1);
    let other = table_rules::class_in(width, inh, syn, body, 3);
    match (class, other) {
        (Class::Unknown, _) | (_, Class::Unknown) => Err(TableFault::Unknown),
        (Class::Input, Class::Input) => Ok(()),
        _ => Err(TableFault::WrongSide),
    }
}

// The lowest fault of the body of a tag 5 field after c others.
#[tactic(auto, unfolding(table_rules::specs::Rule::condition_fault, table_fields::specs::Demand::at_most, table_fields::specs::Demand::below, table_fields::specs::Demand::if_equal))]
pub fn condition_fault(
    c: usize,
    width: usize,
    inh: &[u8; POSITIONS],
    syn: &[u8; POSITIONS],
    body: &[u8],
) -> Result<(), TableFault>
    requires { width ≤ symbols_limit }
    ensures { fault_or_zero result ≡ condition_fault c width inh.now syn.now body.now }
{
    if body.len() < 1 || CONDITIONS <= c {
        return Err(TableFault::OutsideLimits);
    }
    match table_fields::wide(body[0]) {
        0 => range_fault(width, inh, syn, body),
        kind if kind <= 2 => at_most_fault(4 * kind + 1, width, inh, syn, body),
        _ => Err(TableFault::Unknown),
    }
}
