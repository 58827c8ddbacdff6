//! Copying bytes from one slice to another.

ghost use Rattle.std.specs.Prelude.{◌≡◌, ◌++◌, min, length, take, drop};

/// Copies bytes from the front of `from` to the front of `into`, and answers how many. They are as many as both have,
/// and `most` at most.
pub fn copy_front(from: &[u8], into: &mut [u8], most: usize) -> usize
    ensures count { result ≡ min most (min (length from.now) (length into.old)) }
    ensures copied { into.new ≡ take result from.now ++ drop result into.old }
{
    let n = most.min(from.len().min(into.len()));
    into[..n].copy_from_slice(&from[..n]);
    n
}
