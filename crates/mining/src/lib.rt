//! The folders of a work folder, their order and what they hold, and the iterations that make them, over any site.
#![tactic(auto)]

mod check;
mod child_words;
mod end;
mod iterate;
mod make;
mod paths;
mod place;
mod run;
mod says;
mod spec;
mod stop;
mod whole;

pub use end::mine_on;
pub use iterate::{count_changed, drop_messages, next_iteration};
pub use make::{ensure_folder, make_folder};
pub use place::Place;
pub use run::{Reached, most_of};
pub use says::{say_iteration, say_resumed};
pub use stop::Stop;
pub use whole::has;
