//! A law of lanes.
ghost use Rattle.sparse_store.specs.OriginLaws.{OriginsTellFiles};

/// A law: the origin of a lane tells of each file of its store whether it was there when the store was split.
pub fn origins_tell_files()
    ensures { OriginsTellFiles }
{}
