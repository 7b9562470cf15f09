// A half: ground on the way down the tree, with what is known of the boundary in it, and what is sought there.
use ground::{Lon, Point, Rectangle};

// The ground of a half. The edges that are kept for some ground around it stand in the room, from one
// place to before another, and those before the place `first` miss the half. Of the ground around it the
// east side is known, and whether the count is odd at a corner in it. No slice stands for the places, as the
// room is written behind them, and `odd` is a count's, no flag that says whether a value is there.
#[derive(Clone, Copy)]
pub struct Half {
    pub ground: Rectangle,
    pub corner: Point,
    pub odd: bool,
    pub east: Lon,
    pub from: usize,
    pub first: usize,
    pub to: usize,
}

// What is sought: cells of a level from one to another in the extents of a unit, which are nowhere
// narrower than `least`.
#[derive(Clone, Copy)]
pub struct Sought {
    pub extents: Rectangle,
    pub coarsest: u32,
    pub finest: u32,
    pub least: u32,
}
