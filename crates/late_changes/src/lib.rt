// Late changes as an overlay (document 02, item 3): overlays and pairs read, and the laws of what is read.
#![tactic(auto)]

pub use overlay::{Overlay, read_overlay};
pub use pair::{Meant, PairRead, PairRefusal, Shown, lines_shown, module_lines, read_pair};
