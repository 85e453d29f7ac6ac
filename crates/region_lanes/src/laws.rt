//! What the clauses on opening and closing say together. Each function does nothing: its contract is the law.
ghost use Rattle.region_lanes.specs.Laws.{RulesKeepApart, OpenedLanesTell, FilesHoldTheTold, NoPartStays};
ghost use Rattle.region_lanes.specs.Laws.{DistinctAreOut, LanesAreDistinct, OtherFilesStay, PartsAreByOrigins};
ghost use Rattle.region_lanes.specs.Laws.{LanesAreByOrigins};

/// No two regions of a table lie in one file.
pub fn rules_keep_regions_apart()
    ensures { RulesKeepApart }
{}

/// Lanes that were just opened tell the first bytes of their region: zeros, or those of its file.
pub fn opened_lanes_tell_the_file()
    ensures { OpenedLanesTell }
{}

/// What the lanes of a region tell stands in its file once they are closed, and the file's further bytes are as they were.
pub fn files_hold_what_their_lanes_told()
    ensures { FilesHoldTheTold }
{}

/// No part is out once each part's lane is closed.
pub fn no_part_stays_out()
    ensures { NoPartStays }
{}

/// Lanes whose parts are out, no two of one part, can be closed in any order.
pub fn distinct_parts_are_out_in_turn()
    ensures { DistinctAreOut }
{}

/// The lanes of regions that share no file have a part of their own each.
pub fn lanes_have_parts_of_their_own()
    ensures { LanesAreDistinct }
{}

/// A file that no lane lies in is as before.
pub fn other_files_stay()
    ensures { OtherFilesStay }
{}

/// The same lanes have the same parts, whatever they tell.
pub fn same_lanes_have_the_same_parts()
    ensures { PartsAreByOrigins }
{}

/// The same lanes are lanes of the same regions, whatever they tell.
pub fn same_lanes_are_of_the_same_regions()
    ensures { LanesAreByOrigins }
{}
