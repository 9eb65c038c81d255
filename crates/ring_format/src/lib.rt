//! Ring files: which layouts are lawful, the bytes of their heads and cells, and the cells that are to be
//! laid over one.
//!
//! A ring file keeps one metric. It is a head, and then one to 25 archives from the finest to the coarsest,
//! each a ring of cells of 20 bytes. All numbers in it are big-endian. Files of version 1,
//! whose cells have 12 bytes, are read as they are, and only files of version 2 are written.
#![tactic(auto)]

mod archive;
mod archive_list;
mod cell;
mod fault;
mod fault_search;
mod head;
mod head_reading;
mod layout;
mod method;
mod patch;
mod slot;

pub use archive::{Archive, MOST_ARCHIVES, Method};
pub use cell::{
    CELL_BYTES, OLD_CELL_BYTES, OLD_VERSION, RUN_BYTES, RUN_CELLS, VERSION, cell_bytes_in,
    read_cell, read_cell_is_written, read_old_cell, write_cell, written_cell_is_read,
};
pub use fault::{HeadFault, LayoutFault};
pub use head::{HEAD_BYTES, write_head};
pub use head_reading::{read_head, version_of};
pub use layout::Layout;
pub use patch::{CellWrite, Patch};
pub use slot::slot_of;
pub use std::alloc::AllocError as NoMemory;
