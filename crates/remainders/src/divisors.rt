//! The greatest common divisor of two numbers.

ghost use Rattle.std.specs.Prelude.{◌≡◌};
ghost use Rattle.remainders.specs.Divisors.{CommonDivisorsAreGreatest, common_divisor};

/// What `common_divisor` gives divides both numbers, and each number that divides both divides it.
pub fn common_divisors_are_greatest()
    ensures { CommonDivisorsAreGreatest }
{}

/// The greatest common divisor of two numbers. Takes no memory.
pub fn common_divisor(a: u32, b: u32) -> u32
    ensures { result ≡ common_divisor a b }
{
    if b == 0 { a } else { common_divisor(b, a % b) }
}
