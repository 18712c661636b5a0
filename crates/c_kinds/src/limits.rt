/// The most cells that a declared array or a struct may have, 2 ^ 60. So every count of cells fits a `u64`.
pub const MAX_OBJECT_CELLS: u64 = 1_152_921_504_606_846_976;
