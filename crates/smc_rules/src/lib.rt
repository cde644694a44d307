//! What a configuration of smcroute sets: active interfaces, rules and groups. Which requests that
//! makes, and what the rules ask for a packet that had no route.
#![tactic(auto)]

mod aim;
mod interface;
mod interfaces;
mod key;
mod learned;
mod requests;
mod rules;
mod settings;

pub use aim::Aim;
pub use interface::Interface;
pub use interfaces::vif_of;
pub use key::Key;
pub use learned::Learned;
pub use requests::{del_learned, del_route, is_exact, push_del_learned};
pub use rules::{Groups, Rules};
pub use settings::Settings;
