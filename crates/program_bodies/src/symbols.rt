// The instructions of a production's symbols.
ghost use Rattle.std.specs.Prelude.{◌+◌, ◌≤◌, ◌<◌, ◌≡◌, length};
ghost use Rattle.program_block_words.specs.Patch.{Wrote};
ghost use Rattle.program_body_words.specs.SchemeWords.{add_words, add_size};
ghost use Rattle.program_body_words.specs.OfProduction.{expect_head, SymbolFits, SymbolWrote, SymbolsFit, SymbolsWrote};

use outline::count_of;
use program_blocks::write_block;
use program_parts::Items;
use value::word_or_zero;

const ADD: u32 = operations::ADD as u32;

const READ: u32 = operations::READ as u32;

const PREDICT: u32 = operations::PREDICT as u32;

// The expect of a symbol, by its byte.
fn expect_head(symbol: u32) -> u32
    requires { symbol < 256 }
    ensures { result ≡ expect_head symbol }
{
    if symbol < 128 {
        program_parts::head(READ, symbol)
    } else {
        program_parts::head(PREDICT, symbol - 128)
    }
}

fn write_add(n: u32, area: &mut [u32], address: usize) -> usize
    requires { (n < 512) × (address + add_size n ≤ length area.old) }
    ensures { Wrote area.old area.new address result (add_words n) }
{
    if n == 0 {
        return address;
    }
    area[address] = program_parts::head(ADD, n);
    address + 1
}

// The instructions of the symbol at position k + 1; the address of its expect is written among those of the production's expects, which
// stand from another address on.
fn write_symbol(
    row: &[u8],
    fields: &[u8],
    inherited: &[u8],
    synthesized: &[u8],
    marks: &[u32],
    links: &[u32],
    levels: &[u32],
    k: usize,
    area: &mut [u32],
    address: usize,
    expects: usize,
) -> usize
    requires { SymbolFits row.now fields.now inherited.now synthesized.now marks.now links.now levels.now k area.old address expects }
    ensures { (x : SymbolFits row.now fields.now inherited.now synthesized.now marks.now links.now levels.now k area.old address expects) → SymbolWrote x area.new result }
{
    let symbol = outline::row_symbol(row, k);
    let own = count_of(inherited, symbol as usize) as u32;
    let all = own + count_of(synthesized, symbol as usize) as u32;
    let top = word_or_zero(levels, k + 1);
    let from = write_add(all, area, address);
    let rules = Items::Rules;
    let expect = write_block(fields, marks, links, rules, k + 1, top, levels, area, from);
    area[expects + k] = expect as u32;
    area[expect] = expect_head(symbol);
    let rest = top - own;
    let test = expect + 1;
    write_block(
        fields,
        marks,
        links,
        Items::Conditions,
        k + 1,
        rest,
        levels,
        area,
        test,
    )
}

// The instructions of all symbols, and the addresses of their expects.
pub fn write_symbols(
    row: &[u8],
    fields: &[u8],
    inherited: &[u8],
    synthesized: &[u8],
    marks: &[u32],
    links: &[u32],
    levels: &[u32],
    area: &mut [u32],
    address: usize,
    expects: usize,
) -> usize
    requires { SymbolsFit row.now fields.now inherited.now synthesized.now marks.now links.now levels.now area.old address expects }
    ensures { (x : SymbolsFit row.now fields.now inherited.now synthesized.now marks.now links.now levels.now area.old address expects) → SymbolsWrote x area.new result }
{
    let size = outline::row_size(row) as usize;
    let mut to = address;
    for k in 0..size {
        to = write_symbol(
            row,
            fields,
            inherited,
            synthesized,
            marks,
            links,
            levels,
            k,
            area,
            to,
            expects,
        );
    }
    to
}
