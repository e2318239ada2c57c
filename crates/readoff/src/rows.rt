// A row of bits as bytes.
ghost use Rattle.std.specs.Prelude.{◌≡◌, Bool, ℕ, ◌<◌, length};
ghost use Rattle.lists.specs.Rows.{tab};
ghost use Rattle.job.specs.ReadOff.{byte};

// A bit at each place of the row. Where the calls give what f says, the row is f's. It asks that the function may
// be called for each place, which no call can test; readoff and values call it with functions of their own.
pub fn put_bits<F: Fn(usize) -> bool>(row: &mut [u8], bit: F)
    requires { (i : ℕ) → i < length row.old → F.pre bit i }
    ensures { (f : ℕ → Bool) → ((i : ℕ) → i < length row.old → (b : Bool) → F.post bit i b → b ≡ f i)
        → row.new ≡ tab (length row.old) λ i. byte (f i) }
{
    for (i, byte) in row.iter_mut().enumerate() {
        *byte = u8::from(bit(i));
    }
}
