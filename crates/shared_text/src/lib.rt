//! Texts that are kept once and shared, for keys and values.
#![tactic(auto)]

mod bytes;
mod laws;
mod owned;
mod text;

pub use laws::equal_is_same;
pub use owned::OwnedText;
pub use text::Text;
