//! The room of a stripe: all memory that it ever takes.
ghost use Rattle.std.specs.Prelude.{◌≡◌, ◌<◌, ◌≤◌, [], length, map, vec_capacity, IfOk};
ghost use Rattle.page_model.specs.Setups.{quota};
ghost use Rattle.soft_mmu.specs.Entries.{no_pages};
ghost use Rattle.stripe_core.specs.Configs.{CanMake};
ghost use Rattle.stripe_core.specs.InsideMade.{buffer_made, regions_made, no_faults};
ghost use Rattle.stripe_core.specs.InsideReadFaults.{AreShares};

use crate::config::StripeConfig;
use crate::read_faults::{ReadFaults, Share};
use crate::region::{Lane, Region};
use crate::waiting_faults::WaitingFaults;
use page_base::OutOfMemory;
use page_buffer::PageBuffer;
use soft_mmu::PageTable;
use std::alloc::Global;

/// The parts of a stripe that hold no lane. The buffer among them must be closed, so it is made last: nothing fails behind it.
pub(crate) struct Parts {
    pub(crate) table: PageTable,
    pub(crate) buffer: PageBuffer,
    pub(crate) queue: WaitingFaults,
    pub(crate) faults: Vec<ReadFaults>,
}

impl Parts {
    pub(crate) fn new(alloc: Global, config: &StripeConfig) -> Result<Parts, OutOfMemory>
        requires can { (lanes : _) × CanMake config.now lanes }
        ensures table { IfOk result (λ p. p.table ≡ no_pages config.now.shapes.items) }
        ensures buffer { IfOk result (λ p. p.buffer ≡ buffer_made config.now) }
        ensures raises { IfOk result (λ p. p.queue.raises ≡ []) }
        ensures capacity { IfOk result (λ p. p.queue.capacity ≡ config.now.faults) }
        ensures none { IfOk result (λ p. map (λ f. f.numbers) p.faults.items ≡ map no_faults config.now.shapes.items) }
        ensures shares { IfOk result (λ p. AreShares config.now p.faults.items) }
    {
        let quota = config.layout.quota(config.number);
        let table = PageTable::new(alloc, &config.shapes)?;
        let queue = WaitingFaults::new(alloc, config.faults)?;
        let faults = faults_of(alloc, config)?;
        let regions = config.shapes.len() as u32;
        let buffer = PageBuffer::new(alloc, quota, config.layout.page_size(), regions)?;
        Ok(Parts {
            table,
            buffer,
            queue,
            faults,
        })
    }
}

/// For each region that no read of its pages failed.
fn faults_of(alloc: Global, config: &StripeConfig) -> Result<Vec<ReadFaults>, OutOfMemory>
    requires can { (lanes : _) × CanMake config.now lanes }
    ensures none { IfOk result (λ v. map (λ f. f.numbers) v.items ≡ map no_faults config.now.shapes.items) }
    ensures shares { IfOk result (λ v. AreShares config.now v.items) }
{
    let mut faults = Vec::with_capacity(alloc, config.shapes.len())?;
    for shape in config.shapes.as_slice() {
        let region = faults.len() as u16;
        let share = Share::of(&config.layout, config.number, region, shape.group);
        faults.push_reserved(ReadFaults::none(alloc, share, shape.pages)?);
    }
    Ok(faults)
}

/// The regions of these lanes, all home, and of these read faults, with the vector that the lanes came in. The regions go
/// into `room`, and no memory is taken.
pub(crate) fn regions_of<S>(
    room: Vec<Region<S>>,
    mut lanes: Vec<S>,
    mut faults: Vec<ReadFaults>,
) -> (Vec<Region<S>>, Vec<S>)
    requires empty { room.items ≡ [] }
    requires fits { length lanes.items ≤ vec_capacity room }
    requires one_each { length faults.items ≡ length lanes.items }
    ensures made { result.0.items ≡ regions_made lanes.items faults.items }
    ensures emptied { result.1.items ≡ [] }
    ensures home { length lanes.items ≤ vec_capacity result.1 }
{
    let mut regions = room;
    while let Some(lane) = lanes.pop() {
        let read_faults = faults.pop().unwrap();
        regions.push_reserved(Region {
            lane: Lane::Home(lane),
            closing: false,
            unmapped: false,
            read_faults,
        });
    }
    regions.reverse();
    (regions, lanes)
}
