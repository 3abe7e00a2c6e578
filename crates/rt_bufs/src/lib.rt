//! Byte buffers that are cut and shared: bytes are copied where a call says so, and else have
//! several owners. A contract sees a buffer as the list of its bytes.
#![tactic(auto)]

mod builder;
mod io_buf;
mod io_buf_mut;
mod io_bufs;
mod io_bufs_mut;

pub use builder::Builder;
pub use io_buf::IoBuf;
pub use io_buf_mut::IoBufMut;
pub use io_bufs::IoBufs;
pub use io_bufs_mut::IoBufsMut;
