//! Sparse stores: many files of one length in a folder, as one region. There is the text of a store's metadata; the store as a
//! whole, created, opened, split into one lane for each stripe, joined again, and closed; and a lane, read, written and closed.
//!
//! It stands on the folders and parts of `file_store`, on `page_base`, and on the kit's `itoa` and `thiserror`. `read_meta`
//! promises that it accepts exactly the texts that `meta_text` prints, and names of any other how far it goes with one;
//! `write_meta` writes that text. A store is created or opened just where its folder allows it, refusals come in a fixed order,
//! and behind a refusal the folder is as before but for a metadata file that a failed write left.
#![tactic(auto)]

mod close;
mod fault;
mod file;
mod join;
mod lane;
mod laws;
mod meta;
mod paths;
mod split;
mod store;
#[cfg(test)]
mod tests;

pub use fault::SparseFault;
pub use lane::SparseLane;
pub use laws::origins_tell_files;
pub use meta::{BadMeta, META_ROOM, MOST_META_NUMBER, Meta, read_meta, write_meta};
pub use split::SparseBack;
pub use store::{MOST_FILES, SparseStore};
