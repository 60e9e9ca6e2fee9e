// The faults of tags 1, 2 and 6: header, counts, and terminals that carry a value.
#![tactic(auto)]

ghost use Rattle.std.specs.Prelude.{◌≡◌};
ghost use Rattle.refusals.specs.Numbers.{fault_or_zero};
ghost use Rattle.table_fields.specs.Judge.{header_fault, counts_fault, carrier_fault};

use limits::{ATTRIBUTES, NONTERMINALS, TERMINALS};
use refusals::TableFault;

// The lowest fault that applies to the body of a tag 1 field.
#[tactic(auto, using(std::proofs::lemmas::Bool::Decides::nat_tests), unfolding(table_fields::specs::Judge::header_fault, table_fields::specs::Demand::equal, table_fields::specs::Demand::at_most, table_fields::specs::Demand::below))]
pub fn header_fault(body: &[u8]) -> Result<(), TableFault>
    ensures { fault_or_zero result ≡ header_fault body.now }
{
    let &[terminals, nonterminals, start, _] = body else {
        return Err(TableFault::OutsideLimits);
    };
    let terminals = usize::from(terminals);
    let nonterminals = usize::from(nonterminals);
    if !(1..=TERMINALS).contains(&terminals) || !(1..=NONTERMINALS).contains(&nonterminals) {
        return Err(TableFault::OutsideLimits);
    }
    if nonterminals <= usize::from(start) {
        return Err(TableFault::Unknown);
    }
    Ok(())
}

// The lowest fault that applies to the body of the tag 2 field of nonterminal n.
#[tactic(auto, using(std::proofs::lemmas::Bool::Decides::nat_tests), unfolding(table_fields::specs::Judge::counts_fault, table_fields::specs::Demand::equal, table_fields::specs::Demand::at_most, table_fields::specs::Demand::if_equal))]
pub fn counts_fault(n: usize, start: usize, res: usize, body: &[u8]) -> Result<(), TableFault>
    ensures { fault_or_zero result ≡ counts_fault n start res body.now }
{
    let &[inherited, synthesized] = body else {
        return Err(TableFault::OutsideLimits);
    };
    let inherited = usize::from(inherited);
    let synthesized = usize::from(synthesized);
    if ATTRIBUTES < inherited + synthesized {
        return Err(TableFault::OutsideLimits);
    }
    if n == start && (inherited != 0 || res < 1 || synthesized < res) {
        return Err(TableFault::StartAttributes);
    }
    Ok(())
}

// The lowest fault that applies to the body of a tag 6 field. The terminals from `least` on are above the one before.
#[tactic(auto, using(std::proofs::lemmas::Bool::Decides::nat_tests), unfolding(table_fields::specs::Judge::carrier_fault, table_fields::specs::Demand::equal, table_fields::specs::Demand::at_most, table_fields::specs::Demand::below))]
pub fn carrier_fault(terminals: usize, least: usize, body: &[u8]) -> Result<(), TableFault>
    ensures { fault_or_zero result ≡ carrier_fault terminals least body.now }
{
    let &[terminal] = body else {
        return Err(TableFault::OutsideLimits);
    };
    let terminal = usize::from(terminal);
    if terminals <= terminal || terminal < least {
        return Err(TableFault::Unknown);
    }
    Ok(())
}
