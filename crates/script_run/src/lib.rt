//! Runs the scripts of a workload one after another.
//!
//! It stands on the workload language, on the table of regions, on the lanes of backing stores, and on the pager of one
//! thread. `serial` says what a run may answer and leave where the stores' calls may fail, by `specs/FitsSerial.antt`; where
//! none failed, that is the serial meaning of `specs/Serial.antt`, whatever page size, buffer, watermarks and stripes are set.
//! It also says what the journals of the stripes have noted then, by `specs/FitsJournals.antt`. Beside it stand what a run is
//! made of: its settings, the table of a workload's regions, and the lanes of regions in memory.
#![tactic(auto)]

mod access;
pub mod laws;
mod memory;
mod opening;
mod regions;
mod replies;
mod rooms;
mod serial_run;
mod settings;

pub use memory::memory_lanes;
pub use regions::{RegionKind, RegionRefusal, TableFault, table_of_maps};
pub use serial_run::{RunBack, SerialEnd, serial};
pub use settings::{
    DEFAULT_AHEAD, DEFAULT_EVICTORS, DEFAULT_FAULTS, DEFAULT_FILLERS, DEFAULT_FRAMES, DEFAULT_HIGH,
    DEFAULT_LOW, DEFAULT_PAGE_SIZE, DEFAULT_STRIPES, Settings,
};
