// The scale of a span, and one level coarser.
ghost use Rattle.std.specs.Prelude.{◌≡◌};
ghost use Rattle.unit.specs.Unit.{scale_of, coarser as Unit·coarser};

use code::FINEST_SCALE;
use ground::COARSEST;

// The finest level, at most 27, whose nominal size times 32 is greater than a span; the coarsest where none is.
#[tactic(auto, using(crate::proofs::Drawn::scaling))]
pub fn scale_of(span: u32) -> u32
    ensures { result ≡ scale_of span }
{
    for level in (COARSEST + 1..=FINEST_SCALE).rev() {
        if span < ground::size(level) * 32 {
            return level;
        }
    }
    COARSEST
}

// One level coarser; there is none before the coarsest.
pub(crate) fn coarser(level: u32) -> u32
    ensures { result ≡ Unit·coarser level }
{
    COARSEST.max(level.saturating_sub(1))
}
