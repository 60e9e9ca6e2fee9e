// The reader of a table: refusals 1 to 10, or an outline of what was read.
#![tactic(auto)]

ghost use Rattle.std.specs.Prelude.{◌≡◌, ◌+◌, ◌*◌, ◌≤◌, length};
ghost use Rattle.meaning.specs.Table.{byte, read_table};
ghost use Rattle.table_fields.specs.Field.{rest};
ghost use Rattle.table_counts.specs.Counted.{counted};
ghost use Rattle.table.specs.Answer.{Answers, AnswersFrom, Worded};
ghost use Rattle.table_production.specs.Productions.{HeaderRead, Begun};

use limits::{NONTERMINALS, PRODUCTIONS, ROWS, TABLE};
use outline::Sizes;
use refusals::{TableFault, TableRefusal};
use table_items::Items;
use table_production::read_production;
use token_set::TokenSet;

// Where the productions begin: no rule and no condition is read.
fn none_read(from: usize) -> Items
    ensures { (result.at ≡ from) × (result.rules ≡ 0) × (result.conditions ≡ 0) }
{
    Items {
        at: from,
        rules: 0,
        conditions: 0,
    }
}

// All productions, from an offset on.
fn read_productions(
    table: &[u8],
    from: usize,
    sizes: Sizes,
    inherited: &[u8; NONTERMINALS],
    synthesized: &[u8; NONTERMINALS],
    rows: &mut [u8; ROWS],
    offsets: &mut [u32; PRODUCTIONS],
    words: &mut [u64; PRODUCTIONS],
) -> Result<Sizes, TableRefusal>
    requires { Begun table.now from sizes inherited.now synthesized.now }
    ensures { AnswersFrom table.now from sizes result inherited.now synthesized.now rows.new offsets.new × Worded result rows.new words.new }
{
    let mut done = none_read(from);
    let mut p = 0;
    // Kept: each step is as long as the fields of the production that it reads, so no range has these offsets.
    while done.at < table.len() {
        done = read_production(
            table,
            done,
            p,
            sizes,
            inherited,
            synthesized,
            rows,
            offsets,
            words,
        )?;
        p += 1;
    }
    if p == 0 {
        let fault = TableFault::OutOfOrder;
        let offset = done.at as u32;
        return Err(TableRefusal { fault, offset });
    }
    Ok(Sizes {
        productions: p,
        ..sizes
    })
}

// The tag 6 fields and the productions, from the last tag 2 field on.
fn read_after_counts(
    table: &[u8],
    sizes: Sizes,
    inherited: &[u8; NONTERMINALS],
    synthesized: &[u8; NONTERMINALS],
    rows: &mut [u8; ROWS],
    offsets: &mut [u32; PRODUCTIONS],
    words: &mut [u64; PRODUCTIONS],
) -> Result<Sizes, TableRefusal>
    requires { HeaderRead table.now sizes inherited.now synthesized.now }
    ensures read { Answers result inherited.now synthesized.now rows.new offsets.new (rest table.now (counted table.now inherited.now synthesized.now sizes.nonterminals) (7 + 5 * sizes.nonterminals)) }
    ensures words { Worded result rows.new words.new }
{
    let from = 7 + 5 * sizes.nonterminals;
    let carried = match table_carriers::read_carriers(table, from, sizes.terminals) {
        Ok(carried) => carried,
        Err(refused) => {
            return Err(TableRefusal {
                fault: refused.fault,
                offset: refused.at as u32,
            });
        }
    };
    let known = Sizes {
        carrying: carried.carrying,
        ..sizes
    };
    read_productions(
        table,
        carried.at,
        known,
        inherited,
        synthesized,
        rows,
        offsets,
        words,
    )
}

// The numbers of the header, whose field is good; those of the productions and of the terminals with a value are not known yet.
fn header_sizes(table: &[u8]) -> Sizes
    requires { 7 ≤ length table.now }
    ensures { (result.terminals ≡ byte table.now 3) × (result.nonterminals ≡ byte table.now 4) × (result.start ≡ byte table.now 5) × (result.result ≡ byte table.now 6) }
{
    Sizes {
        terminals: usize::from(table[3]),
        nonterminals: usize::from(table[4]),
        start: usize::from(table[5]),
        result: usize::from(table[6]),
        productions: 0,
        carrying: TokenSet::EMPTY,
    }
}

// Reads a table. The lent arrays hold the outline of a table that is well formed: the counts of each nonterminal, a row of
// 16 bytes for each production (left side, length of the right side, symbols), the offset of its field and the word of its right side.
// After a refusal they are scratch.
pub fn read_table(
    table: &[u8],
    inherited: &mut [u8; NONTERMINALS],
    synthesized: &mut [u8; NONTERMINALS],
    rows: &mut [u8; ROWS],
    offsets: &mut [u32; PRODUCTIONS],
    words: &mut [u64; PRODUCTIONS],
) -> Result<Sizes, TableRefusal>
    ensures read { Answers result inherited.new synthesized.new rows.new offsets.new (read_table table.now) }
    ensures words { Worded result rows.new words.new }
{
    if TABLE < table.len() {
        return Err(TableRefusal {
            fault: TableFault::TooLong,
            offset: 0,
        });
    }
    table_counts::judge_header(table).map_err(|fault| TableRefusal { fault, offset: 0 })?;
    let sizes = header_sizes(table);
    table_counts::read_counts(
        table,
        sizes.nonterminals,
        sizes.start,
        sizes.result,
        inherited,
        synthesized,
    )?;
    read_after_counts(table, sizes, inherited, synthesized, rows, offsets, words)
}
