// Questions about edges, points and cells, answered by `1` for yes, `0` for no.
ghost use Rattle.std.specs.Prelude.{◌*◌, ◌≤◌, length};

use crate::outgoing::Outgoing;
use crate::request::{MOST, count_in};
use ground::{Cell, Lat, Lon, Point, Rectangle};

// The room for the edges of a line's coordinates: two coordinates are a corner, from which an edge starts.
const EDGES: usize = 2 * MOST;

pub(crate) fn answer(text: &[u8], out: &mut Outgoing) -> Option<()> {
    if lines::starts(text, b"meets ") {
        return answer_meets(text, out);
    }
    if lines::starts(text, b"odd ") {
        return answer_odd(text, out);
    }
    if lines::starts(text, b"inside ") {
        return answer_inside(text, out);
    }
    None
}

// `meets ALAT ALON BLAT BLON WEST EAST SOUTH NORTH`: whether the edge from A to B meets the rectangle.
fn answer_meets(text: &[u8], out: &mut Outgoing) -> Option<()> {
    let mut numbers = [0u32; 8];
    if count_in(text, 5, &mut numbers)? != 8 {
        return None;
    }
    put_truth(meets(numbers), out);
    Some(())
}

fn meets(numbers: [u32; 8]) -> bool {
    let [a_lat, a_lon, b_lat, b_lon, west, east, south, north] = numbers;
    let sides = Rectangle {
        west: Lon(west),
        east: Lon(east),
        south: Lat(south),
        north: Lat(north),
    };
    !edge::misses(point(a_lat, a_lon), point(b_lat, b_lon), sides)
}

fn point(lat: u32, lon: u32) -> Point {
    Point {
        lat: Lat(lat),
        lon: Lon(lon),
    }
}

// Lists the edges of a boundary in a lent room and answers how many they are.
fn list(numbers: &[u32], edges: &mut [u32]) -> usize
    ensures { 4 * result ≤ length edges.old }
{
    let mut places = [0usize; MOST / 2];
    boundary::list_edges(numbers, edges, &mut places)
}

// `odd LAT LON COORDINATE..`: whether the point has an odd count.
fn answer_odd(text: &[u8], out: &mut Outgoing) -> Option<()> {
    let mut numbers = [0u32; MOST];
    let count = count_in(text, 3, &mut numbers)?;
    if count < 2 {
        return None;
    }
    let asked = point(numbers[0], numbers[1]);
    let mut edges = [0u32; EDGES];
    let listed = list(&numbers[2..count], &mut edges);
    let odd = boundary::odd_count(&edges[..4 * listed], asked);
    put_truth(odd, out);
    Some(())
}

// `inside LEVEL WEST SOUTH COORDINATE..`: whether the cell is inside.
fn answer_inside(text: &[u8], out: &mut Outgoing) -> Option<()> {
    let mut numbers = [0u32; MOST];
    let count = count_in(text, 6, &mut numbers)?;
    if count < 3 {
        return None;
    }
    let cell = Cell {
        level: numbers[0],
        west: Lon(numbers[1]),
        south: Lat(numbers[2]),
    };
    let mut edges = [0u32; EDGES];
    let listed = list(&numbers[3..count], &mut edges);
    let inside = boundary::inside(&edges[..4 * listed], cell);
    put_truth(inside, out);
    Some(())
}

fn put_truth(truth: bool, out: &mut Outgoing) {
    out.put(if truth { b"1" } else { b"0" });
}
