// Crossed boundaries: the first pair of edges that meets. What that is stands in specs/Crossed.antt.
#![tactic(auto)]

mod leap;
mod meeting;
mod rows;
mod run;
mod search;

ghost use Rattle.std.specs.Prelude.{◌/◌, ◌≤◌, ◌≡◌, length};
ghost use Rattle.corners.specs.Corners.{corners_of};
ghost use Rattle.crossed.specs.Crossed.{pair_of};

// The first pair of up to 1,024 edges, with rooms for the extents of their rows and for what is near a row.
fn pair_of_many(numbers: &[u32]) -> Option<(usize, usize)>
    requires { length numbers.now / 2 ≤ 1024 }
    ensures { result ≡ pair_of (corners_of numbers.now) }
{
    let mut extents = [0u32; 512];
    let mut near = [0usize; 129];
    rows::list_rows(numbers, &mut extents);
    search::search(numbers, &extents, &mut near)
}

// The first pair of edges of a boundary that meets, by first edge, then second, for all numbers, each by the
// place of the corner where it starts; none where no two meet. Rows pay where there are several of them.
pub fn first_pair(numbers: &[u32]) -> Option<(usize, usize)>
    ensures { result ≡ pair_of (corners_of numbers.now) }
{
    let count = numbers.len() / 2;
    if run::FEW < count && count <= 1024 {
        return pair_of_many(numbers);
    }
    search::search(numbers, &[], &mut [])
}
