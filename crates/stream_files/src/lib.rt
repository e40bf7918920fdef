//! Stream files: IVF read and written, Y4M written, and a reader's bytes up to a
//! limit.
#![tactic(auto)]

mod file_bytes;
mod ivf;
mod ivf_writing;
pub mod laws;
mod packets;
mod parts;
mod reading;
mod records;
mod streams;
mod y4m;

pub use file_bytes::FileBytes;
pub use ivf::{EMPTY, IvfFault, ivf_read, ivf_read_from, ivf_share};
pub use ivf_writing::{ivf_packet, ivf_padded_packet, ivf_start};
pub use packets::{Bytes, MAX_PACKETS, Packet, Packets};
pub use reading::{ReadFault, read_all};
pub use streams::{FrameRate, Head, Stream};
pub use y4m::{WriteFault, y4m_frame, y4m_header};
