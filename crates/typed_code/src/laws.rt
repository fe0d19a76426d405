ghost use Rattle.typed_code.specs.Laws.{TypedJumpsStandInLoops, TypedIsEncodable, TypedIsWritten, TypedCallsOrdinary, TypedIsMeant};

/// In a unit without a fault each `break` and `continue` stands in a loop.
pub fn typed_jumps_stand_in_loops()
    ensures { TypedJumpsStandInLoops }
{}

/// In a unit without a fault, whose methods have few parameters, each member with few locals is encodable.
pub fn typed_is_encodable()
    ensures { TypedIsEncodable }
{}

/// The lines of such a member's code can be laid out.
pub fn typed_is_written()
    ensures { TypedIsWritten }
{}

/// The members of a unit without a fault call nothing that is built into the machine.
pub fn typed_calls_ordinary()
    ensures { TypedCallsOrdinary }
{}

/// The code of these members names each method with the signature of its descriptor.
pub fn typed_is_meant()
    ensures { TypedIsMeant }
{}
