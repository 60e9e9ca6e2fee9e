// The lent cells: how many of them a run may use, and their clearing.
#![tactic(auto)]

ghost use Rattle.std.specs.Prelude.{min, ◌≡◌, length, replicate};
ghost use Rattle.meaning.specs.Value.{mark};

// Kept: that `sheet`, `preview`, `rank` and `inner` cut to the lent cells is proved by this name; the minimum itself is std's.
pub fn smaller(a: usize, b: usize) -> usize
    ensures { result ≡ min a b }
{
    a.min(b)
}

// What a cleared cell of each stack holds stands here alone.
pub fn clear_registers(registers: &mut [i64])
    ensures { registers.new ≡ replicate (length registers.old) mark }
{
    registers.fill(value::MARK);
}

pub fn clear_places(places: &mut [u32])
    ensures { places.new ≡ replicate (length places.old) 0 }
{
    places.fill(0);
}
