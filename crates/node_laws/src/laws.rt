ghost use Rattle.node_laws.specs.Laws.{ResolvedNodesAreFew, WrittenLimitsLeaveRoom};

/// A member of a typed unit has at most twice as many nodes as are written.
pub fn resolved_nodes_are_few()
    ensures { ResolvedNodesAreFew }
{}

/// Where no member has more than 1,200 written nodes, no member's lines are assembled to `TooLong` or `FarJump`.
pub fn written_limits_leave_room()
    ensures { WrittenLimitsLeaveRoom }
{}
