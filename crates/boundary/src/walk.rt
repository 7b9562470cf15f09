// The walk along the edges of a boundary, from each corner to the next and from the last to the first:
// they are listed in a lent room, edges of no length left out.
ghost use Rattle.std.specs.Prelude.{◌+◌, ◌/◌, ◌<◌, ◌≡◌, cond, length, set};
ghost use Rattle.edge.specs.Edge.{edge, no_length};
ghost use Rattle.boundary.specs.Listed.{with_edge, place_after, listed_count, listed_edges, listed_places};

use corners::corner;
use ground::Point;

// Puts an edge at a place of a room, and nothing where the room has no such place.
pub fn put_edge(room: &mut [u32], place: usize, a: Point, b: Point)
    ensures { room.new ≡ with_edge room.old place (edge a b) }
{
    if place < room.len() / 4 {
        let at = 4 * place;
        room[at] = a.lat.0;
        room[at + 1] = a.lon.0;
        room[at + 2] = b.lat.0;
        room[at + 3] = b.lon.0;
    }
}

// The place after a place of so many: after the last comes the first.
fn place_after(count: usize, place: usize) -> usize
    requires { place < count }
    ensures { result ≡ place_after count place }
{
    let after = place + 1;
    if after == count { 0 } else { after }
}

// Lists an edge and the place where it starts behind those that are listed, if it has a length.
fn list_edge(
    edges: &mut [u32],
    places: &mut [usize],
    listed: usize,
    place: usize,
    a: Point,
    b: Point,
) -> usize
    requires { listed < length places.old }
    ensures value { result ≡ cond (no_length (edge a b)) listed (listed + 1) }
    ensures edges_after { edges.new ≡ cond (no_length (edge a b)) edges.old (with_edge edges.old listed (edge a b)) }
    ensures places_after { places.new ≡ cond (no_length (edge a b)) places.old (set places.old listed place) }
{
    if a == b {
        return listed;
    }
    put_edge(edges, listed, a, b);
    places[listed] = place;
    listed + 1
}

// Lists the edges of the boundary of the caller's numbers, edges of no length left out, with the places
// of the corners where they start, and answers how many they are. Where one of the rooms has fewer places
// than there are corners, it lists nothing and answers 0.
pub fn list_edges(numbers: &[u32], edges: &mut [u32], places: &mut [usize]) -> usize
    ensures value { result ≡ listed_count numbers.now edges.old places.old }
    ensures edges_after { edges.new ≡ listed_edges numbers.now edges.old places.old }
    ensures places_after { places.new ≡ listed_places numbers.now edges.old places.old }
{
    let count = numbers.len() / 2;
    if edges.len() / 4 < count {
        return 0;
    }
    if places.len() < count {
        return 0;
    }
    let mut listed = 0;
    for i in 0..count {
        listed = list_edge(
            edges,
            places,
            listed,
            i,
            corner(numbers, i),
            corner(numbers, place_after(count, i)),
        );
    }
    listed
}
