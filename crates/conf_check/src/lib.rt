//! What is said of a configuration: its links, line by line, or the rule that it breaks.
//!
//! [`links_text`] is what `spider_local check` shows of a catalog: a line for each link, in the order of the file, and then `ok`. [`fault_text`] is the
//! text of a rule that a configuration breaks. `specs/Links` and `specs/Rules` have both. The words in a link's line are public for other lines about links.
#![tactic(auto)]

mod links;
mod rules;

pub use links::{links_text, part_text, server_text, status_text};
pub use rules::fault_text;
