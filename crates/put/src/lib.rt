// Bytes put into a lent buffer, one part behind the other. Every method is total: what has no room is not put.
#![tactic(auto)]

ghost use Rattle.std.specs.Prelude.{◌≡◌, [], ◌∷◌, ◌+◌, ◌*◌, ◌≤◌, length};
ghost use Rattle.put.specs.Names.{name_at};

// A lent buffer, and the place behind what stands in it.
#[derive(Drop)]
pub struct Page<'a> {
    pub out: &'a mut [u8],
    pub end: usize,
}

impl<'a> Page<'a> {
    ghost use Rattle.put.specs.Put.{Adds};

    // The buffer from its front on.
    pub fn new(out: &'a mut [u8]) -> Page<'a>
        ensures same_reference { result.out.ghost_name ≡ out.entry.ghost_name }
        ensures out { result.out.now ≡ out.old }
        ensures end { result.end ≡ 0 }
    {
        Page { out, end: 0 }
    }

    pub fn byte(&mut self, b: u8)
        ensures { Adds self.old self.new (b ∷ []) }
    {
        if self.end < self.out.len() {
            self.out[self.end] = b;
            self.end += 1;
        }
    }

    pub fn part(&mut self, part: &[u8])
        ensures { Adds self.old self.new part.now }
    {
        let end = self.end;
        if end <= self.out.len() && part.len() <= self.out.len() - end {
            copy(&mut self.out[end..end + part.len()], part);
            self.end += part.len();
        }
    }

    // Name k of a table, counted from 0; past the table it is empty.
    pub fn name(&mut self, names: &[u8], k: usize)
        ensures { Adds self.old self.new (name_at names.now k) }
    {
        if k <= names.len() / 4 {
            let from = k * 4;
            let length = name_length(names, k);
            self.part(&names[from..from + length]);
        }
    }
}

// Two slices of a length that lie apart, so that a memcpy does: `copy_from_slice` would ask C for a memmove too.
fn copy(to: &mut [u8], from: &[u8])
    requires { length to.old ≡ length from.now }
    ensures { to.new ≡ from.now }
{
    for i in 0..to.len() {
        to[i] = from[i];
    }
}

// How many bytes name k of a table has before its first 0.
fn name_length(names: &[u8], k: usize) -> usize
    requires { k * 4 ≤ length names.now }
    ensures { (result ≡ length (name_at names.now k)) × (k * 4 + result ≤ length names.now) }
{
    for i in 0..4 {
        if lists::get_or(names, k * 4 + i, 0) == 0 {
            return i;
        }
    }
    4
}
