// A set of nonterminals: a word whose bit n is nonterminal n. Bit 63 is no nonterminal's; in a set of symbols it stands for the tokens.
#![tactic(auto)]

ghost use Rattle.std.specs.Prelude.{◌≡◌, ◌<◌, eqb};
ghost use Rattle.std.specs.Int.Bits.{bit_or};
ghost use Rattle.meaning.specs.Sets.{◌∪◌, empty_set, has, singleton, end_number};
ghost use Rattle.token_set.specs.SetBits.{set_of};

// Kept: a type beside `TokenSet`, so that no set of tokens is taken for one of nonterminals; one type with a marker has no `TokenSet(word)`.
#[derive(Clone, Copy, Debug, PartialEq, Eq)]
pub struct NonterminalSet(pub u64);

impl NonterminalSet {
    pub const EMPTY: NonterminalSet = NonterminalSet(0);

    pub const TOKENS: NonterminalSet = NonterminalSet(0x8000_0000_0000_0000);

    // The set of one number that has a bit.
    pub fn of_nonterminal(n: u8) -> NonterminalSet
        requires { n < 64 }
        ensures { set_of result.0 ≡ singleton n }
    {
        NonterminalSet(1u64 << n)
    }

    pub fn union(self, other: NonterminalSet) -> NonterminalSet
        ensures set { set_of result.0 ≡ set_of self.0 ∪ set_of other.0 }
        ensures word { result.0 ≡ bit_or self.0 other.0 }
    {
        NonterminalSet(self.0 | other.0)
    }

    // Whether a number that has a bit is in.
    pub fn has(self, n: u8) -> bool
        requires { n < 64 }
        ensures { result ≡ has (set_of self.0) n }
    {
        (self.0 >> n) & 1 == 1
    }

    pub fn is_empty(self) -> bool
        ensures { result ≡ eqb self.0 0 }
    {
        self.0 == 0
    }
}

// What the constants are: rows of code, since definitions do not see constants.
fn empty_row() -> NonterminalSet
    ensures { set_of result.0 ≡ empty_set }
{
    NonterminalSet::EMPTY
}

fn tokens_row() -> NonterminalSet
    ensures { set_of result.0 ≡ singleton end_number }
{
    NonterminalSet::TOKENS
}
