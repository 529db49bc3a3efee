//! The layout of an image: its areas, and the one spelling of each form.
#![tactic(auto)]

mod bytes;
mod dentry;
mod geometry;
mod header;
mod inode;
mod record_codec;
mod record_decode;
mod records;
mod superblock;

pub use dentry::{Dentry, get_dentry, put_dentry};
pub use geometry::{BadGeometry, Geometry};
pub use header::{Header, get_header, put_header};
pub use inode::{Extent, Inode, get_inode, put_inode};
pub use record_codec::{count_fitting, put_records, record_length};
pub use record_decode::get_records;
pub use records::{Committed, CommittedList, ExtentList, LogRecord, Records};
pub use superblock::{Super, get_super, put_super, super_version};
