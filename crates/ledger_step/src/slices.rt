// Slices of states: a count that is handed in may be past the slice's length.
ghost use Rattle.std.specs.Prelude.{◌≡◌, take, slice_get};

// The first `count` of them, or all where there are not so many.
pub fn in_use<T>(states: &[T], count: usize) -> &[T]
    ensures { result.now ≡ take count states.now }
{
    states.get(..count).unwrap_or(states)
}

// The one that stands at a place among the first `count` of them.
pub fn used_at<T: Copy>(states: &[T], count: usize, at: usize) -> Option<T>
    ensures { result ≡ slice_get (take count states.now) at }
{
    in_use(states, count).get(at).copied()
}
