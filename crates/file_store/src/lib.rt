//! Files by parts: the traits through which files are read and written, lanes over them, folders in memory and the folder
//! that a program runs in; and the streams that input comes from and output goes to.
//!
//! It stands on `store_trait` (lanes) and `page_base`. A folder is seen as its told files, the parts of them that are out,
//! and its count of faults; a part as its name, what it tells, and its count. It promises that each call leaves files and
//! parts as they were but for what it names; that several parts of one file are out together, each with pages of its own;
//! and that after the last is closed the file holds their bytes joined, with its further bytes as before. Of a real folder
//! nothing is told: there the promises are those on counts, and the few lines that read and write are trusted. A stream says
//! by its count of faults where a read or a write of it failed.
#![tactic(auto)]

mod dir_folder;
mod dir_part;
mod file_lane;
mod files;
mod folder;
mod mem_folder;
mod mem_part;
mod part;
mod shelf;
mod sink;
mod source;

pub use dir_folder::DirFolder;
pub use dir_part::DirPart;
pub use file_lane::FileLane;
pub use files::{FailingFolder, FailingPart, FolderCall, MemFile, PartCall};
pub use folder::{Cut, Folder, FolderFault};
pub use mem_folder::MemFolder;
pub use mem_part::MemPart;
pub use part::{Part, PartFault};
pub use sink::{FailingWrite, MemSink, Sink, SinkFault, StdSink};
pub use source::{MemSource, Source, SourceFault, StdSource};
