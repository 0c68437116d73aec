//! The memory that the caller lends.

use crate::seat::Seat;
use nodes::node::{Frame, Record, Slot};

/// The six arrays that the caller lends: the mapping table, the pools of records and frames, the keys and values of
/// the frames' items, and the seats.
// The arrays are fields of their own: with both item arrays in one field a caller would not learn what its own arrays
// hold. The sizes are no field: each call is told them, and is refused where the arrays do not fit.
#[derive(Drop)]
pub struct LentMemory<'a, K> {
    pub slots: &'a mut [Slot],
    pub records: &'a mut [Record<K>],
    pub frames: &'a mut [Frame<K>],
    pub keys: &'a mut [K],
    pub values: &'a mut [u64],
    pub seats: &'a mut [Seat<K>],
}
