// The occupancy page: how full front buckets are, as lines of text.

#![tactic(auto)]

pub mod decimal;
pub mod line;
pub mod page;

use crumbmap::layout::FRONT_SLOTS;

// "24 lines."
pub const LINES: usize = 24;

// "42 bytes each with its newline": 13 columns, the bar, the newline.
pub const LINE_BYTES: usize = 14 + FRONT_SLOTS;

pub const PAGE_BYTES: usize = LINES * LINE_BYTES;
