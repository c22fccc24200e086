//! Points, shifts and boxes on the integer grid, wide vectors, and the definitions of meeting and of motion.
#![tactic(auto)]

mod extent;
mod grid;
pub mod laws;
mod list;
mod memory;
pub mod narrow;
mod pair_positions;
mod point_arithmetic;
mod vector;

pub use extent::Extent;
pub use grid::{NO_SHIFT, Point, Shift};
pub use list::{Items, copy_of};
pub use memory::NoMemory;
pub use narrow::orient;
pub use pair_positions::Positions;
pub use point_arithmetic::{floor_mid, halved, moved};
pub use vector::Wide;

/// The greatest size of a point's coordinate.
pub const BOX: u32 = 268_435_456;
/// The greatest size of a shift's component.
pub const SHIFT_MAX: u32 = 536_870_912;
/// The greatest size of a position in half units.
pub const HALF_MAX: u32 = 536_870_912;
/// The greatest size of a corner of an extent, in half units.
pub const EXTENT_MAX: u32 = 1_073_741_824;
/// The greatest length that a pass over edges may be given.
pub const LENGTH_MAX: u32 = 1_073_741_824;
/// The greatest depth of time halving.
pub const DEPTH_MAX: u8 = 10;
/// The greatest number of halvings of a shift.
pub const HALVINGS_MAX: u8 = 27;

/// The greatest number of decimals of a coordinate that is read or written.
pub const DECIMALS_MAX: u8 = 6;

/// The greatest number of live vertices of a large mesh.
pub const VERTICES_MAX: u32 = 4_194_304;
/// The greatest number of live faces of a large mesh.
pub const FACES_MAX: u32 = 8_388_608;
/// The greatest number of live vertices of a mesh, where no large ones are asked for.
pub const STANDARD_VERTICES: u32 = 65_536;
/// The greatest number of live faces of a mesh, where no large ones are asked for.
pub const STANDARD_FACES: u32 = 131_072;
/// The greatest id of a vertex or a face.
pub const ID_MAX: u32 = 2_147_483_648;
/// The greatest length of a large text in bytes: its lines are counted in 31 bits.
pub const TEXT_MAX: usize = 2_147_483_647;
/// The greatest length of a text in bytes, where no large ones are asked for.
pub const STANDARD_TEXT: usize = 67_108_864;

/// The greatest size of a position that time halving makes.
pub const WIDE_MAX: u64 = (HALF_MAX as u64) << (DEPTH_MAX as u32);
/// The greatest size of a difference of two such positions.
pub const DIFFERENCE_MAX: u64 = 2 * WIDE_MAX;
/// The greatest size of a direction.
pub const DIRECTION_MAX: u128 = 2 * ((DIFFERENCE_MAX as u128) * (DIFFERENCE_MAX as u128));
/// The greatest size of a product of a direction's component and a difference's.
const PRODUCT_MAX: u128 = DIRECTION_MAX * (DIFFERENCE_MAX as u128);
