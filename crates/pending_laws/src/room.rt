//! How many items a step adds.

ghost use Rattle.pending_laws.specs.Room.{SheetsHaveRoom, StepsAddOneItem};

/// A step adds one item at most.
pub fn steps_add_one_item()
    ensures { StepsAddOneItem }
{}

/// A sheet that has at least two items fewer than the limit has room.
pub fn sheets_have_room()
    ensures { SheetsHaveRoom }
{}
