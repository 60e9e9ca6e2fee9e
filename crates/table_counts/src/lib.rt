// The tag 1 field and the tag 2 fields: the header and the counts of a table.
#![tactic(auto)]

ghost use Rattle.std.specs.Prelude.{◌≡◌, ◌≤◌, length};
ghost use Rattle.meaning.specs.Limits.{nonterminals_limit};
ghost use Rattle.meaning.specs.Table.{byte};
ghost use Rattle.refusals.specs.Numbers.{fault_or_zero};
ghost use Rattle.table_counts.specs.Counted.{CountsJudged, CountsRead, HeaderJudged};

use limits::NONTERMINALS;
use refusals::{TableFault, TableRefusal};

// What is wrong with the header, the field at offset 0.
#[tactic(auto, using(crate::proofs::Steps::part_body, crate::proofs::Steps::header_over, crate::proofs::Steps::header_cut, crate::proofs::Steps::header_other, crate::proofs::Steps::header_right))]
pub fn judge_header(table: &[u8]) -> Result<(), TableFault>
    ensures { HeaderJudged table.now (fault_or_zero result) }
{
    if table.is_empty() {
        return Err(TableFault::OutOfOrder);
    }
    let Some(size) = table_fields::size_at(table, 0) else {
        return Err(TableFault::CutShort);
    };
    if table[0] != 1 {
        return Err(TableFault::OutOfOrder);
    }
    table_field_faults::header_fault(&table[3..3 + size])
}

// What is wrong with the counts of nonterminal n.
#[tactic(auto, using(crate::proofs::Steps::part_body, crate::proofs::Steps::counts_over, crate::proofs::Steps::counts_cut, crate::proofs::Steps::counts_other, crate::proofs::Steps::counts_right))]
pub fn judge_counts(
    table: &[u8],
    at: usize,
    n: usize,
    start: usize,
    res: usize,
) -> Result<(), TableFault>
    requires { at ≤ length table.now }
    ensures { CountsJudged table.now at n start res (fault_or_zero result) }
{
    if table.len() <= at {
        return Err(TableFault::OutOfOrder);
    }
    let Some(size) = table_fields::size_at(table, at) else {
        return Err(TableFault::CutShort);
    };
    if table[at] != 2 {
        return Err(TableFault::OutOfOrder);
    }
    let from = at + 3;
    table_field_faults::counts_fault(n, start, res, &table[from..from + size])
}

// All tag 2 fields.
pub fn read_counts(
    table: &[u8],
    nonterminals: usize,
    start: usize,
    res: usize,
    inherited: &mut [u8; NONTERMINALS],
    synthesized: &mut [u8; NONTERMINALS],
) -> Result<(), TableRefusal>
    requires { (nonterminals ≡ byte table.now 4) × (start ≡ byte table.now 5) × (res ≡ byte table.now 6) × (nonterminals ≤ nonterminals_limit) × (7 ≤ length table.now) }
    ensures read { CountsRead table.now nonterminals inherited.new synthesized.new result }
    ensures kept { (length inherited.new ≡ nonterminals_limit) × (length synthesized.new ≡ nonterminals_limit) }
{
    for n in 0..nonterminals {
        let at = 7 + 5 * n;
        let offset = at as u32;
        judge_counts(table, at, n, start, res).map_err(|fault| TableRefusal { fault, offset })?;
        inherited[n] = table[at + 3];
        synthesized[n] = table[at + 4];
    }
    Ok(())
}
