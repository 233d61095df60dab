//! Coordinates, bounding boxes that cannot be wrong, and how near two boxes are.

#![tactic(auto)]

pub mod around;
pub mod bounds;
pub mod chessboard;
pub mod choice;
pub mod combine;
pub mod contains;
pub mod corners;
pub mod euclidean;
pub mod gap;
pub mod manhattan;
pub mod measure;
pub mod moved;
