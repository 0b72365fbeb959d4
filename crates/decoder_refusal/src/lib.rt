// What `decode` is given beside a code, and what it refuses that by: the settings, the penalties of a frame, which a
// reader of frames refuses too, and the buffers lent to be written.
#![tactic(auto)]

mod call;
mod frame;
mod lent;
mod settings;

pub use call::check;
pub use frame::check_frame;
pub use lent::Lent;
pub use settings::Settings;
