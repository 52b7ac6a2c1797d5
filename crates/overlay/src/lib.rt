// Late changes as an overlay (document 02, item 3): the text of an overlay read to what it says, or to its first refusal.
#![tactic(auto)]

mod block;
mod line;
mod read;

// The reader of a pair asks for the marks; callers want `read_overlay`.
pub use read::{Overlay, OverlayMarked, read_overlay, read_overlay_marked};
