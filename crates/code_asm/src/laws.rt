ghost use Rattle.code_asm.specs.Laws.{ItemsStand};

/// Items whose pieces are finished stand in the code, with their constants: a law, as the contract of a function that
/// does nothing.
pub fn items_stand()
    ensures { ItemsStand }
{}
