//! The room that the replies of a workload take, at most, before any of them is known.
//!
//! Each line may be answered by a fault, so each has room for one beside the longest name.
ghost use Rattle.std.specs.Prelude.{◌≡◌, map, IfSome};
ghost use Rattle.workload_text.specs.View.{lines_of, script_lines, command_line, region};
ghost use Rattle.workload_text.specs.Accepted.{regions_of};
ghost use Rattle.script_run.specs.InsideRooms.{longest_name, fault_room, room, rooms};

use workload_text::{Command, MapLine, Script, Workload};

/// The bytes of a fault's reply beside the region's name: `fault `, two spaces, a line feed, at most 10 digits of a page and
/// 20 of a count.
pub(crate) const FAULT_ROOM: usize = 39;

/// The bytes of a script's reply beside its name.
pub(crate) const SCRIPT_ROOM: usize = 8;

/// The bytes of a load's reply beside the digits.
pub(crate) const LOAD_ROOM: usize = 6;

fn longest_name_of(maps: &[MapLine]) -> usize
    ensures { result ≡ longest_name (map region maps.now) }
{
    let mut longest = 0usize;
    for i in 0..maps.len() {
        longest = longest.max(maps[i].name.len());
    }
    longest
}

fn room_of_command(command: &Command, fault: usize) -> usize
    ensures { (gs : _) → fault ≡ fault_room gs → result ≡ room gs (command_line command.now) }
{
    match command {
        Command::Load {
            region: _,
            off: _,
            len,
        } => (2 * *len as usize + LOAD_ROOM).max(fault),
        _ => fault,
    }
}

/// None where the room is more than a `usize` holds.
fn room_of_script(script: &Script, fault: usize) -> Option<usize>
    ensures { IfSome result (λ n. (gs : _) → fault ≡ fault_room gs → n ≡ rooms gs (script_lines script.now)) }
{
    let Some(mut room) = script.name.len().checked_add(SCRIPT_ROOM) else {
        return None;
    };
    let commands = script.commands.as_slice();
    for i in 0..commands.len() {
        match room.checked_add(room_of_command(&commands[i], fault)) {
            Some(more) => room = more,
            None => return None,
        }
    }
    Some(room)
}

/// The bytes of all replies at most. None where that is more than a `usize` holds.
pub(crate) fn room_of(workload: &Workload) -> Option<usize>
    ensures { IfSome result (λ n. n ≡ rooms (regions_of (lines_of workload.now)) (lines_of workload.now)) }
{
    let Some(fault) = longest_name_of(workload.maps.as_slice()).checked_add(FAULT_ROOM) else {
        return None;
    };
    let mut room = 0usize;
    let scripts = workload.scripts.as_slice();
    for i in 0..scripts.len() {
        let Some(own) = room_of_script(&scripts[i], fault) else {
            return None;
        };
        match room.checked_add(own) {
            Some(more) => room = more,
            None => return None,
        }
    }
    Some(room)
}
