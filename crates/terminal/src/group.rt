// The groups of a piece of input: each as long as the last, but for what is left at the end.
ghost use Rattle.std.specs.Prelude.{◌≡◌, ◌+◌, min};

// Where the group that begins at a place ends: a size further, or where the piece does.
pub fn group_end(length: usize, from: usize, size: usize) -> usize
    ensures { result ≡ min (from + size) length }
{
    from.saturating_add(size).min(length)
}
