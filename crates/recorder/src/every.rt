//! How many instructions lie between two checkpoints of a guest.

ghost use Rattle.std.specs.Prelude.{◌≡◌, ◌+◌, ◌≤◌, min, sum_by};
ghost use Rattle.recorder.specs.Gaps.{cost_of_page, first_gap, gap_behind, cost_of};

use rrv_model::record::{PagePart, Part};

/// What a page of a checkpoint costs to make, in instructions of a guest.
const PAGE_COST: u64 = 550;

/// What a line of 64 bytes of a checkpoint costs.
const LINE_COST: u64 = 280;

/// What each page that is mapped costs.
const MAPPED_COST: u64 = 11;

/// How many times its cost runs behind a checkpoint, so that checkpoints take about a tenth of a run.
const SHARE: u64 = 10;

/// The fewest instructions between two checkpoints that go by their cost: the default of `record`.
const LEAST_GAP: u64 = 1_048_576;

/// The most.
const MOST_GAP: u64 = 4_294_967_295;

/// How many instructions lie between two checkpoints at the least.
#[derive(Clone, Copy, Debug, PartialEq, Eq)]
pub enum Every {
    /// So many. 0: there are no checkpoints.
    Instructions(u32),
    /// So many that checkpoints take about a tenth of a run: 1,048,576, or ten times what the last checkpoint cost, if that is more.
    /// The cost goes by its pages and lines alone, and by how many pages are mapped, so that a run has the same checkpoints each time.
    Auto,
}

impl Every {
    /// How many instructions lie between the start and the first checkpoint.
    pub(crate) fn first_gap(self) -> u64
        ensures { result ≡ first_gap self }
    {
        match self {
            Every::Instructions(count) => u64::from(count),
            Every::Auto => LEAST_GAP,
        }
    }

    /// How many lie between a checkpoint of these parts, of a guest with so many mapped pages, and the next one.
    pub(crate) fn gap_behind(self, parts: &[Part], mapped: u32) -> u64
        ensures { result ≡ gap_behind self parts.now mapped }
    {
        match self {
            Every::Instructions(count) => u64::from(count),
            Every::Auto => (SHARE * cost_of(parts, mapped)).clamp(LEAST_GAP, MOST_GAP),
        }
    }
}

/// What a checkpoint of these parts cost, of a guest with so many mapped pages, or the most if that is less.
fn cost_of(parts: &[Part], mapped: u32) -> u64
    ensures { result ≡ min (cost_of parts.now mapped) MOST_GAP }
{
    let mut cost = (MAPPED_COST * u64::from(mapped)).min(MOST_GAP);
    for part in parts {
        cost = with_pages(cost, part.pages.as_slice());
    }
    cost
}

/// A cost and that of some pages, or the most if that is less.
fn with_pages(cost: u64, pages: &[PagePart]) -> u64
    requires { cost ≤ MOST_GAP }
    ensures { result ≡ min (cost + sum_by cost_of_page pages.now) MOST_GAP }
{
    let mut cost = cost;
    for page in pages {
        let lines = u64::from(page.mask.count_ones());
        cost = (cost + PAGE_COST + LINE_COST * lines).min(MOST_GAP);
    }
    cost
}
