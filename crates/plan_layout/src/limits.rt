//! The limits of the numbers of a plan.
ghost use Rattle.plan_layout.specs.Layout.{IsLimited};

use crate::error::LayoutError;
use sem_query::{Numbers, Which};

/// The most cells that a plan may have.
const MOST_CELLS: u64 = 262_144;

/// The most different answers that there may be.
const MOST_ANSWERS: u64 = 65_536;

/// The most combinations of cells that a row may meet.
const MOST_WORK: u64 = 4_194_304;

/// Returns the numbers, where none is above its limit, or the first that is.
pub fn limited(parts: u32, cells: u64, answers: u64, work: u64) -> Result<Numbers, LayoutError>
    ensures { IsLimited record { parts = parts; cells = cells; answers = answers; work = work } result }
{
    if cells > MOST_CELLS {
        return Err(LayoutError::Limit {
            which: Which::Cells,
            value: cells,
        });
    }
    if answers > MOST_ANSWERS {
        return Err(LayoutError::Limit {
            which: Which::Answers,
            value: answers,
        });
    }
    if work > MOST_WORK {
        return Err(LayoutError::Limit {
            which: Which::Work,
            value: work,
        });
    }
    Ok(Numbers {
        parts,
        cells: cells as u32,
        answers: answers as u32,
        work: work as u32,
    })
}
