// Points and linkages of the element at a place of an accepted file, by number. Definitions: specs/Points,
// specs/Linkages.

#![tactic(auto)]

pub mod attributes;
pub mod points;

pub use attributes::linkage_at;
pub use points::{before_points, point_at, point_count};

// A point of a 2D or a 3D file.
#[derive(Clone, Copy)]
pub enum Point {
    Flat { x: i64, y: i64 },
    Solid { x: i64, y: i64, z: i64 },
}
