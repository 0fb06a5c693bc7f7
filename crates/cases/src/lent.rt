// What is new in a buffer that was lent.
ghost use Rattle.std.specs.Prelude.{◌≤◌, length};

// The place after the last item of a buffer that is not as it was lent.
pub fn changed<T: PartialEq + Copy>(buffer: &[T], old: T) -> usize
    ensures { result ≤ length buffer.now }
{
    match buffer.iter().rposition(|&item| item != old) {
        Some(last) => last + 1,
        None => 0,
    }
}
