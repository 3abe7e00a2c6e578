// What is freed, and what keeps its memory until the process ends.

use std::mem;

/// From so many bytes on malloc maps a block.
const MAPPED: usize = 131_072;

/// Frees what has room for so many items of this size, unless its block is mapped: then its memory stays until the
/// process ends.
///
/// Once a mapped block is given back, the C library's allocator maps only larger ones, and copies what grows later
/// where a mapped block would be moved. Whoever reads many large scenarios in one process pays that memory for each.
pub fn let_go<T: Drop>(value: T, room: usize, size: usize) {
    if room >= MAPPED / size.max(1) {
        mem::forget(value);
    }
}
