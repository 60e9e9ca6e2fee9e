// Whether a sheet has room for a tree's records.
#![tactic(auto)]

ghost use Rattle.std.specs.Prelude.{◌≡◌};
ghost use Rattle.refusals.specs.Numbers.{refusal_or_zero};
ghost use Rattle.sheet_room.specs.Room.{refusal_for};

use refusals::Refusal;

// 02 (i): a sheet too short for the records "is turned back as 41". This one has so many bytes.
pub fn refusal(room: usize, size: u64) -> Result<(), Refusal>
    ensures { refusal_or_zero result ≡ refusal_for room size }
{
    if room < size as usize {
        Err(Refusal::SheetShort)
    } else {
        Ok(())
    }
}
