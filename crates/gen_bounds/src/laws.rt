ghost use Rattle.gen_bounds.specs.Laws.{CodeIsShort, LimitsLeaveRoom, LimitsLeaveFewPieces};

/// A member's code has at most so many bytes, pieces, labels and places of the stack for each of its nodes.
pub fn code_is_short()
    ensures { CodeIsShort }
{}

/// The lines of a member within the limits are never assembled to `TooLong` or `FarJump`, whatever the constants.
pub fn limits_leave_room()
    ensures { LimitsLeaveRoom }
{}

/// The code of a member within the limits has few pieces, labels and places of the stack.
pub fn limits_leave_few_pieces()
    ensures { LimitsLeaveFewPieces }
{}
