// A text as a program is handed it: at the front of an array, with zeros behind it.
ghost use Rattle.std.specs.Prelude.{◌≡◌, ◌≤◌, take};

#[derive(Clone, Copy)]
pub struct Printed<const ROOM: usize> {
    pub array: [u8; ROOM],
    pub length: usize,
    ghost inside: { length ≤ ROOM },
}

impl<const ROOM: usize> Printed<ROOM> {
    // The text alone.
    pub fn bytes(&self) -> &[u8]
        ensures { result.now ≡ take self.now.length self.now.array }
    {
        &self.array[..self.length]
    }
}
