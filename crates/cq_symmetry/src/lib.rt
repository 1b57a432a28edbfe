//! Symmetries of the board, shifts and the exchange of colours, and their families, which a query names by one word.
#![tactic(auto)]

mod families;
mod images;
mod mappings;
mod parts;

pub use families::{Family, member, size};
pub use images::{changes_light, image, image_compass};
pub use mappings::Mapping;
pub use parts::SquarePart;
