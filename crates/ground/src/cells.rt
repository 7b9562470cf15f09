// Where cells of a level start afresh, and what is said of a cell's sides.
ghost use Rattle.std.specs.Prelude.{◌≡◌, ◌≤◌};
ghost use Rattle.ground.specs.Levels.{degree, minute};
ghost use Rattle.ground.specs.Cells.{afresh as Cells·afresh};

// Where cells of a level start afresh: at each degree, or at each minute.
pub fn afresh(level: u32) -> u32
    ensures value { result ≡ Cells·afresh level }
    ensures lower_bound { (minute ≤ result) × (result ≤ degree) }
{
    if level <= crate::MINUTE_LEVEL {
        crate::DEGREE
    } else {
        crate::MINUTE
    }
}
