// Bytes of a string copied into another, where both have so many.
#![tactic(auto)]

ghost use Rattle.std.specs.Prelude.{◌≡◌};
ghost use Rattle.copy.specs.Copy.{has_room, copied};

// The first `long` bytes of a string, copied to a place of another. Where one of the two has not so many, nothing is copied, and the
// answer is no. (A plain bool: a `Result` would have nothing to say besides, and `has_room` states the answer.)
pub fn copy(from: &[u8], long: usize, to: &mut [u8], at: usize) -> bool
    ensures { (result ≡ has_room from.now long to.old at)
        × (to.new ≡ copied from.now long to.old at) }
{
    if from.len() < long {
        return false;
    }
    if to.len() < long {
        return false;
    }
    if to.len() - long < at {
        return false;
    }
    // A plain loop, of which the compiler makes one move of memory.
    for i in 0..long {
        to[at + i] = from[i];
    }
    true
}
