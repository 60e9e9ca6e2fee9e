// The set of the tokens that may come, or what turns the call back, as numbers.
ghost use Rattle.std.specs.Prelude.{◌≡◌};
ghost use Rattle.token_set.specs.SetBits.{set_of};
ghost use Rattle.preview.specs.May.{may_is};
ghost use Rattle.host.specs.may_numbers.Previewed.{tokens_in, may_number, may_count};

use preview::May;

// A word with bit t for token t, 0 on a refusal.
pub fn tokens_of(may: May) -> u64
    ensures { set_of result ≡ tokens_in (may_is may) }
{
    match may {
        May::Tokens(set) => set.0,
        May::Turned(answer) => 0,
    }
}

// A refusal's number, or 0.
pub fn may_number(may: May) -> u32
    ensures { result ≡ may_number (may_is may) }
{
    match may {
        May::Tokens(set) => 0,
        May::Turned(answer) => host_numbers::answer_number(answer),
    }
}

// What stands beside a refusal, or 0.
pub fn may_count(may: May) -> u64
    ensures { result ≡ may_count (may_is may) }
{
    match may {
        May::Tokens(set) => 0,
        May::Turned(answer) => host_numbers::answer_count(answer),
    }
}
