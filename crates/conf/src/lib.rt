//! What the command line means, and the text of it that a work folder keeps.
#![tactic(auto)]

mod commands;
pub mod laws;
mod options;
mod reading;
mod rules;
mod settings;
mod text;

pub use commands::{Command, Form};
pub use reading::{Conf, Usage, read_words};
pub use text::conf_text;
