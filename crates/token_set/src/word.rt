// The bits of a word, which sets of tokens and sets of nonterminals are made of.
ghost use Rattle.std.specs.Prelude.{◌≡◌};
ghost use Rattle.meaning.specs.Sets.{has, singleton};
ghost use Rattle.token_set.specs.SetBits.{set_of};

// The word of one number; none's where the number has no bit.
pub fn one(n: u8) -> u64
    ensures { set_of result ≡ singleton n }
{
    if n < 64 { 1u64 << n } else { 0 }
}

pub fn has(word: u64, n: u8) -> bool
    ensures { result ≡ has (set_of word) n }
{
    n < 64 && (word >> n) & 1 == 1
}
