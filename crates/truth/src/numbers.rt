// The truth of a clause that is given by its numbers.
ghost use Rattle.std.specs.Prelude.{◌≡◌};
ghost use Rattle.truth.specs.Truth.{number_true, some_true};

use crate::value_at;

// A number as `signed` gives a literal; 0 is none, and not true.
fn number_true(values: &[u8], z: i32) -> bool
    ensures { result ≡ number_true values.now z }
{
    if z < 0 {
        !value_at(values, (-1 - z) as usize)
    } else {
        z != 0 && value_at(values, z as usize - 1)
    }
}

// One of the numbers is true. Open to others: here a reply's clauses are tried by their literals.
#[tactic(auto, using(crate::proofs::TruthLaws::some_none))]
pub fn some_true(values: &[u8], clause: &[i32]) -> bool
    ensures { result ≡ some_true values.now clause.now }
{
    for &z in clause {
        if number_true(values, z) {
            return true;
        }
    }
    false
}
