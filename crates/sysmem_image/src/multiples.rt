//! Least common multiples within 32 bits.

ghost use Rattle.std.specs.Prelude.{ℕ, ◌*◌, ◌≤◌, ◌<◌, IfSome, IfNone};
ghost use Rattle.std.specs.Int.{◌∣◌};
ghost use Rattle.sysmem_image.specs.Multiples.{IsLcm, IsAboveLimit};

/// The least common multiple of two numbers, or `None` where it is above 32 bits.
pub fn lcm_capped(a: u32, b: u32) -> Option<u32>
    requires a_some { 1 ≤ a }
    requires b_some { 1 ≤ b }
    ensures some { IfSome result (λ m. IsLcm a b m) }
    ensures positive { IfSome result (λ m. 1 ≤ m) }
    ensures none { IfNone result (IsAboveLimit a b) }
{
    if a == b || b == 1 {
        return Some(a);
    }
    let shared = gcd(a, b);
    let least = u64::from(a / shared) * u64::from(b);
    if least <= u64::from(u32::MAX) {
        Some(least as u32)
    } else {
        None
    }
}

/// The greatest common divisor; the third clause is what a least common multiple needs of it.
fn gcd(a: u32, b: u32) -> u32
    requires a_some { 1 ≤ a }
    requires b_some { 1 ≤ b }
    ensures left { result ∣ a }
    ensures right { result ∣ b }
    ensures some { 1 ≤ result }
    ensures joins { (k : ℕ) → a ∣ k → b ∣ k → a * b ∣ k * result }
{
    let mut x = a;
    let mut y = b;
    while y != 0 {
        let rest = x % y;
        x = y;
        y = rest;
    }
    x
}
