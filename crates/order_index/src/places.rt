//! The items that are so far from what is moved.

ghost use Rattle.std.specs.Prelude.{◌≡◌, ◌+◌, ◌<◌, ◌≤◌, ◌^◌, Some, slice_get};
ghost use Rattle.order_index.specs.Places.{ArePlaces, IsLess, IsMore};
ghost use Rattle.order_laws.specs.Reversed as order;

/// How far two numbers are apart.
pub(crate) fn distance(m: usize, n: usize) -> usize
    ensures { result ≡ order.distance m n }
{
    if m < n { n - m } else { m - n }
}

/// The number that is so much less, if there is one.
fn number_above(number: usize, far: usize) -> Option<usize>
    ensures { IsLess far number result }
{
    if far <= number {
        Some(number - far)
    } else {
        None
    }
}

/// The number that is so much more, if there is a distance.
fn number_below(number: usize, far: usize) -> Option<usize>
    requires { number + far < 2 ^ 64 }
    ensures { IsMore far number result }
{
    if far == 0 { None } else { Some(number + far) }
}

/// The numbers that are so far from one of two, in their order.
pub(crate) fn places_at(far: usize, upper: usize, lower: usize) -> [Option<usize>; 4]
    requires order { upper ≤ lower }
    requires fits { lower + far < 2 ^ 64 }
    requires twice { far + far < 2 ^ 64 }
    ensures { ArePlaces far upper lower result }
{
    let first = number_above(upper, far);
    let last = number_below(lower, far);
    if upper == lower {
        return [first, last, None, None];
    }
    let second = number_above(lower, far);
    let third = number_below(upper, far);
    let apart = lower - upper;
    if far + far == apart {
        return [first, second, last, None];
    }
    if far + far < apart {
        return [first, third, second, last];
    }
    [first, second, third, last]
}

/// The place of a turn.
pub(crate) fn place_at(places: [Option<usize>; 4], turn: usize) -> Option<usize>
    requires { turn < 4 }
    ensures { slice_get places turn ≡ Some result }
{
    places[turn]
}
