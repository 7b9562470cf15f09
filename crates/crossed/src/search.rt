// The search for the first pair: edges in turn, and for each of them the later ones in turn.
ghost use Rattle.std.specs.Prelude.{◌≡◌, length};
ghost use Rattle.corners.specs.Corners.{corners_of};
ghost use Rattle.crossed.specs.Crossed.{pair_of};
ghost use Rattle.crossed.specs.NearRows.{Rooms};

use crate::leap::{ahead, leap};
use crate::meeting::meeting;
use crate::rows::renew;
use crate::run::run_on;

// The first pair of edges that meets; rooms for rows may be empty. The edges are counted by hand: the two
// loops are left by a label with the pair found (document 01), and a `for` is left with no value.
#[tactic(auto, using(crate::specs::Searching::between_first, crate::specs::Searching::between_leap, crate::specs::Searching::between_next, crate::specs::Searching::between_last, crate::specs::Searching::before_next))]
pub(crate) fn search(numbers: &[u32], extents: &[u32], near: &mut [usize]) -> Option<(usize, usize)>
    requires { Rooms numbers.now extents.now (length near.old) }
    ensures { result ≡ pair_of (corners_of numbers.now) }
{
    let count = numbers.len() / 2;
    let mut run = 0;
    let mut i = 0;
    'edges: loop {
        if count <= i {
            break 'edges None;
        }
        run = run_on(numbers, i, run);
        renew(numbers, extents, i, near);
        let mut from = ahead(near, run);
        while let Some(j) = leap(numbers, extents, near, i, from) {
            if meeting(numbers, i, j) {
                break 'edges Some((i, j));
            }
            from = j + 1;
        }
        i += 1;
    }
}
