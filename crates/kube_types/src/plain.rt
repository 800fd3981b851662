//! The plain data that objects are made of, by name.

pub use plain_data::items::Items;
pub use plain_data::pairs::Pairs;
pub use plain_data::text::{Bytes, Names, Text};
