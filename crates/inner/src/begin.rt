// The stretch of each lent stack above an outer run: where it begins.
ghost use Rattle.std.specs.Prelude.{min, ◌≡◌};

// Where the stretch begins; past what is lent there is none.
pub fn beginning(height: u64, lent: usize) -> usize
    ensures { result ≡ min height lent }
{
    if height < lent as u64 {
        height as usize
    } else {
        lent
    }
}
