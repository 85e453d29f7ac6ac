//! Lines by flat memory: what workload lines load and leave, where it is known which accesses the stripes made for them.
//!
//! It stands on page_model, region_table, store_trait, workload_text, page_base and histories. It is laws alone. It promises
//! that lines load what flat memory has, and leave what they stored, by the accesses of the stripes and by nothing that
//! their code says: so of one pager and of many owners alike.
#![tactic(auto)]

pub mod applied;
pub mod laws;
