// The field readers as document 01 has them, 'Every field reader is lent the line and column count and moves it on': one that is lent the
// cursor over each reader of `fields`, which takes it by value.
#![tactic(auto)]

ghost use Rattle.lent.specs.Lent.{IsLent};

use fields::Cursor;
use job::Fault;

// A field of the line s, read where the cursor stands: the cursor is moved on where the field is read, and else stays. It
// asks that the field may be called, which no call can test; each reader of `fields` may.
pub fn read<F: FnOnce(&[u8], Cursor) -> Result<Cursor, Fault>>(
    field: F,
    s: &[u8],
    at: &mut Cursor,
) -> Result<(), Fault>
    requires { F.IsAlwaysCallable field }
    ensures { (moved : _) × F.post field s.entry at.old moved × IsLent moved at.old result at.new }
{
    let moved = field(s, *at)?;
    *at = moved;
    Ok(())
}
