// What is kept of the entry conditions of all productions, and whether the intervals of two of them leave some value to each attribute.
ghost use Rattle.std.specs.Prelude.{◌≡◌, ◌<◌};
ghost use Rattle.meaning.specs.Limits.{productions_limit};
ghost use Rattle.clash_rivals.specs.intervals.Intervals.{leave_values};

use limits::{ATTRIBUTES, BOUNDS, PRODUCTIONS};

// A low and a high end for each inherited attribute, production p's from 8 p on, and the rank of what conditions each production has: 0 none, 1 ranges, 2 a comparison. It is lent, never copied.
// Kept: two arrays of ends, since the specs see each as a list of numbers, and one of them alone is stored at a time.
#[derive(Drop)]
pub struct KeptEntries {
    pub lows: [u32; BOUNDS],
    pub highs: [u32; BOUNDS],
    pub ranks: [u8; PRODUCTIONS],
}

impl KeptEntries {
    // Whether p and q leave some value to each attribute.
    pub fn leave_values(&self, p: usize, q: usize) -> bool
        requires { (p < productions_limit) × (q < productions_limit) }
        ensures { result ≡ leave_values self.now.lows self.now.highs p q }
    {
        for a in 0..ATTRIBUTES {
            let i = ATTRIBUTES * p + a;
            let j = ATTRIBUTES * q + a;
            if self.highs[j] < self.lows[i]
                || self.highs[i] < self.lows[j]
                || self.highs[i] < self.lows[i]
                || self.highs[j] < self.lows[j]
            {
                return false;
            }
        }
        true
    }
}
