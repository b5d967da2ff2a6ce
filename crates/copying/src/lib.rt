// Copying a buffer's first bytes to the start of an output, and items to a place of it.
#![tactic(auto)]

ghost use Rattle.std.specs.Prelude.{◌≡◌, ◌+◌, ◌≤◌, length, take};
ghost use Rattle.std.proofs.lemmas.List.Edits.{sets};
ghost use Rattle.copying.specs.Appended.{Appended};

// As many as `size` says: how much of a buffer counts is known to the caller alone.
pub fn copy(buffer: &[u8], size: usize, out: &mut [u8])
    requires { (size ≤ length buffer.now) × (size ≤ length out.old) }
    ensures { out.new ≡ sets out.old 0 (take size buffer.now) }
{
    out[..size].copy_from_slice(&buffer[..size]);
}

// Stores the items from a place of the output on, and gives the place after them. One after the other, since the library's copy of a slice is
// called for each, however few the items are. The place goes beside the output, since what is stored is told by it (`Appended`).
pub fn append<T: Copy>(out: &mut [T], at: usize, items: &[T]) -> usize
    requires { at + length items.now ≤ length out.old }
    ensures { Appended out.old at items.now result out.new }
{
    for (i, item) in items.iter().enumerate() {
        out[at + i] = *item;
    }
    at + items.len()
}
