//! What is printed: the texts of lines, tables, replies and refusals, and of an entry of the history.
#![tactic(auto)]

mod entries;
mod line_text;
mod refusal_text;
mod reply_text;

pub use entries::entry_text;
pub use reply_text::text_of_reply;
