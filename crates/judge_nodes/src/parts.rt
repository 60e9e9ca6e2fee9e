// What a node of a sheet is judged by: the token of a terminal, the marks of its symbols, whether its rules and conditions hold.
ghost use Rattle.std.specs.Prelude.{◌≡◌, ◌+◌, ◌-◌, ◌<◌, ◌≤◌, length};
ghost use Rattle.meaning.specs.Grammar.{nonterminal_base};
ghost use Rattle.meaning.specs.Limits.{attributes_limit, productions_limit};
ghost use Rattle.meaning.specs.Table.{byte, symbol_of};
ghost use Rattle.outline.specs.Images.{HasRow, row_count};
ghost use Rattle.program_words.specs.Fields.{fields_from, stretch_end};
ghost use Rattle.program_block_words.specs.Fields.{Listed};
ghost use Rattle.theory_judge.specs.Marks.{read_at, mark_of};
ghost use Rattle.theory_judge.specs.Holding.{listed_true};
ghost use Rattle.judge_nodes.specs.parts.Checked.{fields_of, TokenEnds, Begins, Holdable, closing};

use crate::head::heading;
use crate::marks::token_value;
use crate::values::fields_hold;

// Where the sheet goes on after a tree, and where the tokens do.
#[derive(Clone, Copy)]
pub struct Ends {
    pub next: usize,
    pub end: usize,
}

// A tree to be looked for: the sheet from `at` on, the tokens from `from` on, its symbol, and its depth at most.
#[derive(Clone, Copy)]
pub struct Subtree {
    pub at: usize,
    pub from: usize,
    pub symbol: u8,
    pub depth: usize,
}

// A node by its own record: its production, where the records of its children begin, the tokens before it and those that it covers, and the depth that is left to its children.
#[derive(Clone, Copy)]
pub struct Node {
    pub production: usize,
    pub behind: usize,
    pub from: usize,
    pub covered: usize,
    pub depth: usize,
}

// What is known before the children of a tree: where a token's ends, or the node.
#[derive(Clone, Copy)]
pub enum Begun {
    Token(Ends),
    Inside(Node),
}

// Whether the rules and conditions of production p hold of the values that the marks show.
pub fn holds(
    table: &[u8],
    rows: &[u8],
    offsets: &[u32],
    values: &[i32],
    sheet: &[u8],
    marks: &[usize],
    p: usize,
) -> bool
    requires { (p < productions_limit) × (fields_from rows.now offsets.now p ≤ stretch_end table.now offsets.now (row_count rows.now) p) × (stretch_end table.now offsets.now (row_count rows.now) p ≤ length table.now)
        × Listed (fields_of table.now rows.now offsets.now p) × HasRow rows.now p }
    ensures { (x : Listed (fields_of table.now rows.now offsets.now p)) → result ≡ listed_true (read_at sheet.now values.now marks.now) x }
{
    let from = program_fields::fields_from(rows, offsets, p);
    let to = program_fields::stretch_end(table, offsets, outline::row_count(rows), p);
    fields_hold(&table[from..to], sheet, values, marks)
}

// Whether the token at `from` is of this kind. A token has no record. Its value is in range, as every one of 32 bits is.
pub fn check_token(kinds: &[u8], values: &[i32], at: usize, from: usize, symbol: u8) -> Option<Ends>
    ensures { TokenEnds kinds.now values.now at from symbol result }
{
    if kinds.len() <= from {
        return None;
    }
    if kinds[from] != symbol {
        return None;
    }
    if !value::in_range(token_value(values, from)) {
        return None;
    }
    Some(Ends {
        next: at,
        end: from + 1,
    })
}

// The mark of a symbol: its record's place, or behind the sheet its token's number.
pub fn mark_of(length: usize, symbol: u8, at: usize, from: usize) -> usize
    requires { length + from < 18446744073709551616 }
    ensures { result ≡ mark_of length (symbol_of symbol) at from }
{
    if symbol < 128 { length + from } else { at }
}

// What is judged before the children: a token, the depth, and a node's own record.
pub fn begin(
    rows: &[u8],
    inherited: &[u8],
    synthesized: &[u8],
    kinds: &[u8],
    values: &[i32],
    sheet: &[u8],
    tree: Subtree,
) -> Option<Begun>
    requires { nonterminal_base ≤ tree.symbol → byte inherited.now (tree.symbol - nonterminal_base) + byte synthesized.now (tree.symbol - nonterminal_base) ≤ attributes_limit }
    ensures { Begins rows.now inherited.now synthesized.now kinds.now values.now sheet.now tree result }
{
    if tree.symbol < 128 {
        let ends = check_token(kinds, values, tree.at, tree.from, tree.symbol)?;
        return Some(Begun::Token(ends));
    }
    if tree.depth == 0 {
        return None;
    }
    let m = (tree.symbol - 128) as usize;
    let head = heading(rows, inherited, synthesized, sheet, tree.at, tree.from, m)?;
    Some(Begun::Inside(Node {
        production: head.production,
        behind: head.behind,
        from: tree.from,
        covered: head.covered,
        depth: tree.depth - 1,
    }))
}

// What is judged behind the children, which end there: the tokens covered, the rules and the conditions.
pub fn closed(
    table: &[u8],
    rows: &[u8],
    offsets: &[u32],
    values: &[i32],
    sheet: &[u8],
    marks: &[usize],
    node: Node,
    ends: Ends,
) -> Option<Ends>
    requires { Holdable table.now rows.now offsets.now node.production × (node.from ≤ ends.end) }
    ensures { (x : Listed (fields_of table.now rows.now offsets.now node.production)) → result ≡ closing (listed_true (read_at sheet.now values.now marks.now) x) node ends }
{
    if ends.end - node.from != node.covered {
        return None;
    }
    if !holds(table, rows, offsets, values, sheet, marks, node.production) {
        return None;
    }
    Some(ends)
}
