// 01: "A token set has at most 63 tokens and the end of the segment": a word whose bit t is token t, and bit 63 the end.
#![tactic(auto)]

pub mod word;

ghost use Rattle.std.specs.Prelude.{◌≡◌};
ghost use Rattle.std.specs.Int.Bits.{bit_or};
ghost use Rattle.meaning.specs.Sets.{◌∪◌, empty_set, has, singleton, end_number};
ghost use Rattle.meaning.specs.Decide.{meet};
ghost use Rattle.token_set.specs.SetBits.{set_of};

#[derive(Clone, Copy, Debug, PartialEq, Eq)]
pub struct TokenSet(pub u64);

impl TokenSet {
    pub const EMPTY: TokenSet = TokenSet(0);

    pub const END: TokenSet = TokenSet(0x8000_0000_0000_0000);

    // The set of one token; a number that is no token's gives the empty set.
    pub fn of_token(t: u8) -> TokenSet
        ensures { set_of result.0 ≡ singleton t }
    {
        TokenSet(word::one(t))
    }

    pub fn union(self, other: TokenSet) -> TokenSet
        ensures set { set_of result.0 ≡ set_of self.0 ∪ set_of other.0 }
        ensures word { result.0 ≡ bit_or self.0 other.0 }
    {
        TokenSet(self.0 | other.0)
    }

    pub fn has(self, t: u8) -> bool
        ensures { result ≡ has (set_of self.0) t }
    {
        word::has(self.0, t)
    }

    // Whether some token, or the end, is in both.
    pub fn meets(self, other: TokenSet) -> bool
        ensures { result ≡ meet (set_of self.0) (set_of other.0) }
    {
        self.0 & other.0 != 0
    }
}

// What the constants are: rows of code, since definitions do not see constants.
fn empty_row() -> TokenSet
    ensures { set_of result.0 ≡ empty_set }
{
    TokenSet::EMPTY
}

fn end_row() -> TokenSet
    ensures { set_of result.0 ≡ singleton end_number }
{
    TokenSet::END
}
