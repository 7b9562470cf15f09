// The search for the chosen cell, from the first level whose cells can fit the extents: each level, or some
// together, by halving the cells of a coarser level that lie over the extents. What several functions require
// ties the lent room to the numbers and to what is sought; a struct of all these would be plainer nowhere, as
// each function needs other parts and the room changes.
ghost use Rattle.std.specs.Prelude.{◌+◌, ◌≤◌, ◌<◌, ◌≡◌, None};
ghost use Rattle.ground.specs.Levels.{coarsest_level, finest_level, IsLevel};
ghost use Rattle.ground.specs.Halves.{Ground};
ghost use Rattle.boundary.specs.Listed.{boundary_of};
ghost use Rattle.chosen.specs.Chosen.{choose, Over};
ghost use Rattle.quick.specs.Half.{AllIn};
ghost use Rattle.quick.specs.First.{First, Past};
ghost use Rattle.quick.specs.Descent.{Seeks, Levels, Column, column, everywhere, too_wide, TooWideBefore};

use crate::half::{Half, Sought};
use crate::halving::{by_lat, settled};
use ground::{COARSEST, Cell, FINEST, LON_END, Lat, Lon, Point, Rectangle};

// Whether cells of a level are too wide for the extents.
fn too_wide(r: Rectangle, level: u32) -> bool
    ensures { result ≡ too_wide r level }
{
    let least = ground::narrowest(level);
    angles::apart(r.west.0, r.east.0) < least || angles::apart(r.south.0, r.north.0) < least
}

// The coarsest level whose cells can fit the extents, or the one after the finest.
fn first_level(r: Rectangle) -> u32
    ensures lower_bound { (coarsest_level ≤ result) × (result ≤ finest_level + 1) }
    ensures too_wide_before { TooWideBefore r result }
{
    for level in COARSEST..=FINEST {
        if !too_wide(r, level) {
            return level;
        }
    }
    FINEST + 1
}

// Whether so many cells of a level in a row are shorter than an extent. It only decides what a search
// costs, and nothing is promised of it.
fn short(r: Rectangle, level: u32, cells: u32) -> bool
    requires { 0 < cells }
{
    let size = ground::size(level);
    size < angles::apart(r.west.0, r.east.0) / cells
        || size < angles::apart(r.south.0, r.north.0) / cells
}

// A level to start halving from: the finest, up to the one that is searched, of which three cells in a row
// are not shorter than the extents.
fn top_of(r: Rectangle, level: u32) -> u32
    requires { coarsest_level ≤ level }
    ensures { (coarsest_level ≤ result) × (result ≤ level) }
{
    (COARSEST + 1..=level)
        .rev()
        .find(|&top| !short(r, top, 3))
        .unwrap_or(COARSEST)
}

// The first of what was found and of what is sought in a cell of the level to start from. The count is even
// at a corner of the extents that every corner is at or below.
fn in_cell(
    numbers: &[u32],
    room: &mut [u32],
    count: usize,
    cell: Rectangle,
    sought: Sought,
    top: u32,
    found: Option<Cell>,
) -> Option<Cell>
    requires all_in { AllIn (boundary_of numbers.now) room.old count }
    requires seeks { Seeks (boundary_of numbers.now) sought }
    requires levels { Levels sought.finest top }
    requires halved { Ground top top cell }
    requires past { Past found cell }
    ensures first { First (boundary_of numbers.now) top sought.finest cell found result }
    ensures all_in_2 { AllIn (boundary_of numbers.now) room.new count }
{
    let Rectangle { north, west, .. } = sought.extents;
    let half = Half {
        ground: cell,
        corner: Point {
            lat: north,
            lon: west,
        },
        odd: false,
        east: Lon(LON_END + 1),
        from: 0,
        first: 0,
        to: count,
    };
    by_lat(
        numbers,
        room,
        half,
        sought,
        2 * (sought.finest - top),
        found,
    )
}

// The first of what was found before and of what is sought between two sides of the level to start from:
// that level's south sides in turn. West sides have a function of their own, as latitude and longitude are
// never mixed.
fn in_column(
    numbers: &[u32],
    room: &mut [u32],
    count: usize,
    sought: Sought,
    top: u32,
    west: Lon,
    east: Lon,
    before: Option<Cell>,
) -> Option<Cell>
    requires all_in { AllIn (boundary_of numbers.now) room.old count }
    requires seeks { Seeks (boundary_of numbers.now) sought }
    requires levels { Levels sought.finest top }
    requires column { Column top west east }
    requires past { Past before (column west east) }
    ensures first { First (boundary_of numbers.now) top sought.finest (column west east) before result }
    ensures all_in_2 { AllIn (boundary_of numbers.now) room.new count }
{
    if settled(before, west, top, sought) {
        return before;
    }
    let to = sought.extents.north;
    let mut found = before;
    let mut south = cells::low_side(top, sought.extents.south.0);
    while south < to.0 {
        let north = cells::high_side(top, south) as u32;
        let cell = Rectangle {
            west,
            east,
            south: Lat(south),
            north: Lat(north),
        };
        found = in_cell(numbers, room, count, cell, sought, top, found);
        south = north;
    }
    found
}

// The first of what is sought: west sides of the level to start from in turn.
fn in_levels(
    numbers: &[u32],
    room: &mut [u32],
    count: usize,
    sought: Sought,
    top: u32,
) -> Option<Cell>
    requires all_in { AllIn (boundary_of numbers.now) room.old count }
    requires seeks { Seeks (boundary_of numbers.now) sought }
    requires levels { Levels sought.finest top }
    ensures first { First (boundary_of numbers.now) top sought.finest everywhere None result }
    ensures all_in_2 { AllIn (boundary_of numbers.now) room.new count }
{
    let to = sought.extents.east;
    let mut found = None;
    let mut west = cells::low_side(top, sought.extents.west.0);
    while west < to.0 {
        let east = cells::high_side(top, west) as u32;
        found = in_column(
            numbers,
            room,
            count,
            sought,
            top,
            Lon(west),
            Lon(east),
            found,
        );
        west = east;
    }
    found
}

// The finest level that is searched together with a level: none but itself while its cells over the extents
// are few; where they are many, a descent for some levels at once costs little more than one for the last
// of them, and does not dive far below a coarse cell further on.
fn finest_with(r: Rectangle, level: u32) -> u32
    requires { IsLevel level }
    ensures { (level ≤ result) × (result ≤ finest_level) }
{
    if !short(r, level, 14) {
        return level;
    }
    if level < FINEST - 7 {
        level + 7
    } else {
        FINEST
    }
}

// The chosen cell: the levels in turn, some together. The edges of the boundary, so many, stand at the room's
// start.
pub(crate) fn search(numbers: &[u32], room: &mut [u32], count: usize, r: Rectangle) -> Option<Cell>
    requires all_in { AllIn (boundary_of numbers.now) room.old count }
    requires over { Over r (boundary_of numbers.now) }
    ensures { result ≡ choose r (boundary_of numbers.now) }
{
    let mut level = first_level(r);
    while level <= FINEST {
        let finest = finest_with(r, level);
        let sought = Sought {
            extents: r,
            coarsest: level,
            finest,
            least: ground::narrowest(finest),
        };
        let found = in_levels(numbers, room, count, sought, top_of(r, level));
        if let Some(c) = found {
            return Some(c);
        }
        level = finest + 1;
    }
    None
}
