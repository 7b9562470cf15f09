// Two angles of one direction: the lesser and the greater of them, how far apart they are, and what one
// leaves of the other.
#![tactic(auto)]

ghost use Rattle.std.specs.Prelude.{◌≡◌, ◌-◌, min, max};
ghost use Rattle.angles.specs.Angles.{distance};

// The lesser of two angles.
pub fn lesser(a: u32, b: u32) -> u32
    ensures { result ≡ min a b }
{
    a.min(b)
}

// The greater of two.
pub fn greater(a: u32, b: u32) -> u32
    ensures { result ≡ max a b }
{
    a.max(b)
}

// The distance of two angles.
pub fn apart(a: u32, b: u32) -> u32
    ensures { result ≡ distance a b }
{
    a.abs_diff(b)
}

// An angle less another, and 0 where that is greater.
pub fn less(a: u32, b: u32) -> u32
    ensures { result ≡ a - b }
{
    a.saturating_sub(b)
}
