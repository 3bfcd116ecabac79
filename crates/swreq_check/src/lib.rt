//! The check of a text, and what is made of its machines while they stand.
#![tactic(auto)]

mod answering;
mod asked;
mod called;
mod calling;
mod checking;
mod content;
mod listing;
mod making;
mod minimising;
mod passed;
mod piece;
mod placing;
mod setting;
mod wanted;

pub use asked::Asked;
pub use calling::lines_of_calls;
pub use checking::{Checked, check};
pub use content::{Backing, Content, Made, Shown};
pub use listing::Minimising;
pub use minimising::{line_at, minimised_lines};
pub use passed::Passed;
pub use piece::{Piece, text_at, verdict_at};
pub use placing::places;
pub use wanted::{list_asked, lists_wanted};
