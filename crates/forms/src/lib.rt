//! The forms of linkrun: a reader, what a session answers, and how the answer is printed. Lists of octets as text.
#![tactic(auto)]

pub use fault::{FormFault, SessionFault};
pub use form::Form;
pub use line::without_newline;
pub use octets::{Octets, OctetsFault, octets_text, read_back, read_octets};
pub use read::read_form;
pub use reply::Reply;
pub use session::Session;

mod cursor;
mod fault;
mod form;
mod line;
mod octets;
mod read;
mod reply;
mod session;
