// The counts at the positions of a production. What is written of its row is told here too.
#![tactic(auto)]

ghost use Rattle.std.specs.Prelude.{◌≡◌, ◌≤◌, length};
ghost use Rattle.meaning.specs.Limits.{nonterminals_limit, positions_limit};
ghost use Rattle.outline.specs.Counts.{count_at_value, synthesized_at};
ghost use Rattle.table_rows.specs.RowWritten.{Written};

use limits::{NONTERMINALS, POSITIONS};
use token_set::TokenSet;

// The counts at the positions of a production, by its body.
pub fn place_counts(
    body: &[u8],
    carrying: TokenSet,
    inherited: &[u8; NONTERMINALS],
    synthesized: &[u8; NONTERMINALS],
    inh: &mut [u8; POSITIONS],
    syn: &mut [u8; POSITIONS],
)
    requires { (2 ≤ length body.now) × (length body.now ≤ 14) × (length inherited.now ≡ nonterminals_limit) × (length synthesized.now ≡ nonterminals_limit) × (length inh.old ≡ positions_limit) × (length syn.old ≡ positions_limit) }
    ensures inherits { Written (count_at_value inherited.now) body.now inh.new }
    ensures synthesizes { Written (synthesized_at carrying.0 synthesized.now) body.now syn.new }
{
    let left = 128 + table_fields::wide(body[0]);
    inh[0] = outline::count_of(inherited, left);
    syn[0] = outline::synthesized_of(carrying, synthesized, left);
    for k in 1..body.len() - 1 {
        let symbol = table_fields::wide(body[k + 1]);
        inh[k] = outline::count_of(inherited, symbol);
        syn[k] = outline::synthesized_of(carrying, synthesized, symbol);
    }
}
