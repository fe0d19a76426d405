//! Laws of the definitions, each as the contract of a function that does nothing.

ghost use Rattle.jvm_work.specs.Laws.{EffectsAreTurns};

/// A step that leaves an effect to be done goes on by what the effect comes to.
pub fn effects_are_turns()
    ensures { EffectsAreTurns }
{}
