ghost use Rattle.sat_engine.specs.Room.{IsRoomFor};

/// How many places a table of `old` places needs so that it has one for each of these literals.
pub fn room_for(lits: &[u32], old: usize) -> usize
    ensures { IsRoomFor lits.now old result }
{
    let mut room = old;
    for lit in lits {
        room = room.max(*lit as usize + 1);
    }
    room
}
