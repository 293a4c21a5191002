// The radial of the old shelf (document 003, SA/SB; document 02, #102): its record, and what of ours each part of it gives.
#![tactic(auto)]

pub mod angle;
pub mod clock;
pub mod codes;
pub mod file;
pub mod headers;
pub mod record;
