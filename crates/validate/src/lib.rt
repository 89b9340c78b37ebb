// Whether a loop that was drawn by hand may go to ink (polygon.rs, `Polygon::validate`).
#![tactic(auto)]

pub mod contact;
pub mod drawn;
