//! What is handed over on each channel, and the systems in which no schedule changes it.
#![tactic(auto)]

mod laws;
mod lists;
mod single;
mod text;

pub use laws::channel_laws;
pub use lists::{ChannelList, channel_lists};
pub use single::determinate;
pub use text::channels_text;
