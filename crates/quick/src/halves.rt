// The parts of a half: south and north of a latitude, west and east of a longitude. They share its edges,
// as asking these again costs less than sorting them. They are four functions, and not two, as latitude and
// longitude are never mixed (a rule of the project).
ghost use Rattle.std.specs.Prelude.{◌≡◌};
ghost use Rattle.ground.specs.Rectangles.{south_of, north_of, west_of, east_of};
ghost use Rattle.quick.specs.Half.{part_of, starting_at};

use crate::half::Half;
use ground::{Lat, Lon, Rectangle};

// A half whose edges before a place miss it.
pub(crate) fn starting_at(half: Half, first: usize) -> Half
    ensures { result ≡ starting_at half first }
{
    Half { first, ..half }
}

// The south half.
pub(crate) fn south_half(half: Half, at: Lat) -> Half
    ensures { result ≡ part_of half (south_of half.ground at) }
{
    Half {
        ground: Rectangle {
            north: at,
            ..half.ground
        },
        ..half
    }
}

// The north half.
pub(crate) fn north_half(half: Half, at: Lat) -> Half
    ensures { result ≡ part_of half (north_of half.ground at) }
{
    Half {
        ground: Rectangle {
            south: at,
            ..half.ground
        },
        ..half
    }
}

// The west half.
pub(crate) fn west_half(half: Half, at: Lon) -> Half
    ensures { result ≡ part_of half (west_of half.ground at) }
{
    Half {
        ground: Rectangle {
            east: at,
            ..half.ground
        },
        ..half
    }
}

// The east half.
pub(crate) fn east_half(half: Half, at: Lon) -> Half
    ensures { result ≡ part_of half (east_of half.ground at) }
{
    Half {
        ground: Rectangle {
            west: at,
            ..half.ground
        },
        ..half
    }
}
