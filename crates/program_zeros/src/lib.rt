// Zeros in a range of words.
#![tactic(auto)]

ghost use Rattle.std.specs.Prelude.{◌-◌, ◌≤◌, ◌≡◌, length, replicate};
ghost use Rattle.program_block_words.specs.Patch.{patch};

// 0 in the words of a range.
pub fn clear(area: &mut [u32], from: usize, to: usize)
    requires { (from ≤ to) × (to ≤ length area.old) }
    ensures { area.new ≡ patch area.old from (replicate (to - from) 0) }
{
    area[from..to].fill(0);
}
