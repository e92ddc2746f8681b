//! The bytes of a source's items in a layout: the parts of its image.
#![tactic(auto)]

mod building;
mod contents;
mod numbers;
mod words;

pub use building::image_parts;
