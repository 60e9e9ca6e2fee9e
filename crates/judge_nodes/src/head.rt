// A node's own record in a sheet.
ghost use Rattle.std.specs.Prelude.{◌+◌, ◌≤◌};
ghost use Rattle.meaning.specs.Limits.{attributes_limit};
ghost use Rattle.meaning.specs.Table.{byte};
ghost use Rattle.judge_nodes.specs.head.Heads.{HeadOrNone};

use crate::numbers::are_values;

// What a node's own record says: its production, where the records of its children begin, and the tokens that it covers.
#[derive(Clone, Copy)]
pub struct Head {
    pub production: usize,
    pub behind: usize,
    pub covered: usize,
}

// The record at `at`, if it is one of nonterminal m's, with as many tokens before it as there are, and values in range.
pub fn heading(
    rows: &[u8],
    inherited: &[u8],
    synthesized: &[u8],
    sheet: &[u8],
    at: usize,
    from: usize,
    m: usize,
) -> Option<Head>
    requires { byte inherited.now m + byte synthesized.now m ≤ attributes_limit }
    ensures { HeadOrNone rows.now inherited.now synthesized.now sheet.now at from m result }
{
    let n = (value::byte_at(inherited, m) + value::byte_at(synthesized, m)) as usize;
    let length = sheet.len();
    if length <= at || length - at < 12 + 8 * n {
        return None;
    }
    let p = value::word_at(sheet, at) as usize;
    if outline::row_count(rows) <= p {
        return None;
    }
    if outline::left_of(rows, p) as usize != m {
        return None;
    }
    if value::word_at(sheet, at + 4) as usize != from {
        return None;
    }
    if !are_values(sheet, at + 12, n) {
        return None;
    }
    Some(Head {
        production: p,
        behind: at + 12 + 8 * n,
        covered: value::word_at(sheet, at + 8) as usize,
    })
}
