// The bytes of an image, by which a stopped run is taken up: read, write, refuse.
#![tactic(auto)]

pub mod header;
pub mod image_file;
pub mod writing;
