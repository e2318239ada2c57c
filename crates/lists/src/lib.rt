// A place of a list, and the list functions and tests that the definitions of every crate share, with their laws.
#![tactic(auto)]

ghost use Rattle.std.specs.Prelude.{◌≡◌, get_or};

// Place i, and the default past the end.
pub fn get_or<T: Copy>(xs: &[T], i: usize, default: T) -> T
    ensures { result ≡ get_or xs.now i default }
{
    xs.get(i).copied().unwrap_or(default)
}
