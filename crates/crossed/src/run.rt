// Runs: edges one after the other that all go strictly on one course, of which no two meet.
ghost use Rattle.std.specs.Prelude.{◌/◌, ◌<◌, ◌≡◌, ◌&&◌, length};
ghost use Rattle.crossed.specs.Runs.{toward, Going, Free};

use crate::meeting::{corner, end_of};
use ground::Point;

// The most edges among which no rows are looked for, and no runs longer than two edges: they would cost
// more than they save.
pub(crate) const FEW: usize = 16;

// The courses that an edge can take strictly.
#[derive(Clone, Copy)]
pub(crate) enum Course {
    North,
    South,
    East,
    West,
}

// Whether b lies strictly on a course from a. The course is a value and no closure, for the laws of runs
// (`Toward`, `Going`) speak of it by its name.
fn goes(a: Point, b: Point, course: Course) -> bool
    ensures { result ≡ toward course a b }
{
    match course {
        Course::North => a.lat.0 < b.lat.0,
        Course::South => b.lat.0 < a.lat.0,
        Course::East => a.lon.0 < b.lon.0,
        Course::West => b.lon.0 < a.lon.0,
    }
}

// Where the edges from a place on leave a course.
fn course_end(numbers: &[u32], from: usize, course: Course) -> usize
    ensures { Going numbers.now course from result }
{
    let count = numbers.len() / 2;
    for i in from..count {
        if !goes(corner(numbers, i), end_of(numbers, i), course) {
            return i;
        }
    }
    count
}

// North or south, as an edge goes. It and the next stay two: latitude and longitude are never mixed.
fn by_lat(a: Point, b: Point) -> Course {
    if a.lat.0 < b.lat.0 {
        Course::North
    } else {
        Course::South
    }
}

// East or west.
fn by_lon(a: Point, b: Point) -> Course {
    if a.lon.0 < b.lon.0 {
        Course::East
    } else {
        Course::West
    }
}

// The end of the longer run of the edge from a place.
fn run_end(numbers: &[u32], i: usize) -> usize
    requires { i < length numbers.now / 2 }
    ensures { Free numbers.now i result }
{
    let a = corner(numbers, i);
    let b = end_of(numbers, i);
    let lat_end = course_end(numbers, i, by_lat(a, b));
    let lon_end = course_end(numbers, i, by_lon(a, b));
    lat_end.max(lon_end)
}

// Whether the way from a over b to c keeps to a course.
fn keeps(a: Point, b: Point, c: Point, course: Course) -> bool
    ensures { result ≡ (toward course a b && toward course b c) }
{
    goes(a, b, course) && goes(b, c, course)
}

// The next place, or the one after it where the edge from the next goes on.
#[tactic(auto, using(crate::specs::Runs::one_free, crate::specs::Runs::two_free))]
fn past_next(numbers: &[u32], i: usize) -> usize
    requires { i < length numbers.now / 2 }
    ensures { (i < result) × Free numbers.now i result }
{
    let next = i + 1;
    if next == numbers.len() / 2 {
        return next;
    }
    let a = corner(numbers, i);
    let b = corner(numbers, next);
    let c = end_of(numbers, next);
    if keeps(a, b, c, by_lat(a, b)) || keeps(a, b, c, by_lon(a, b)) {
        return next + 1;
    }
    next
}

// A place after that of an edge, up to which no two edges meet: that of the run so far where it is one, or
// of a new one.
pub(crate) fn run_on(numbers: &[u32], i: usize, run: usize) -> usize
    requires i_in_bounds { i < length numbers.now / 2 }
    requires free { Free numbers.now i run }
    ensures { (i < result) × Free numbers.now i result }
{
    if i + 1 < run {
        return run;
    }
    if FEW < numbers.len() / 2 {
        let end = run_end(numbers, i);
        if i + 1 < end {
            return end;
        }
    }
    past_next(numbers, i)
}
