// Sets of nonterminals as words. The symbols on the right of a production are one word: its nonterminals, and the bit of the tokens where it has one. Here: the word of one symbol.
#![tactic(auto)]

ghost use Rattle.std.specs.Prelude.{◌≡◌, ℕ, ◌<◌};
ghost use Rattle.meaning.specs.Table.{symbol_of};
ghost use Rattle.set_words.specs.Views.{members, symbol_bit};
ghost use Rattle.outline.specs.Images.{symbol_bytes};

use nonterminal_set::NonterminalSet;

// The word of one symbol.
pub fn symbol_bit(s: u8) -> NonterminalSet
    requires { s < symbol_bytes }
    ensures { (n : ℕ) → members result.0 n ≡ symbol_bit n (symbol_of s) }
{
    if s < 128 {
        return NonterminalSet::TOKENS;
    }
    NonterminalSet::of_nonterminal(s - 128)
}
