use jp_store::{BinaryOp, ElementKind, Kind, Test};

/// When a jump is made.
#[derive(Clone, Copy, Debug, PartialEq, Eq)]
pub enum Jump {
    Always,
    /// Where an int passes a test against 0.
    IfZero(Test),
    /// Where two ints pass a test.
    IfInts(Test),
    /// Where it is so, or isn't so, that two references are the same.
    IfSame(bool),
    /// Where it is so, or isn't so, that a reference is null.
    IfNull(bool),
}

/// What is done with a constant that an instruction names by two bytes.
#[derive(Clone, Copy, Debug, PartialEq, Eq)]
pub enum ConstantUse {
    PushConstant,
    PushLongConstant,
    GetStatic,
    PutStatic,
    GetField,
    PutField,
    InvokeVirtual,
    InvokeSpecial,
    InvokeStatic,
    MakeObject,
    MakeReferences,
    CheckCast,
    InstanceOf,
}

/// An instruction with its operands. Places in code are counted from its start.
#[derive(Clone, Copy, Debug, PartialEq, Eq)]
pub enum Instr {
    PushNull,
    PushInt(i32),
    PushLong(i64),
    /// Pushes a local variable of a kind.
    Load(Kind, u16),
    /// Pops a value of a kind into a local variable.
    Store(Kind, u16),
    /// Adds to a local variable.
    Increase(u16, i32),
    LoadElement(ElementKind),
    StoreElement(ElementKind),
    MakeNumbers,
    MakeTruths,
    ArrayLength,
    PopTop,
    Dup,
    DupBelow,
    DupTwo,
    Binary(BinaryOp),
    Negate,
    Widen,
    AddLongs,
    MultiplyLongs,
    CompareLongs,
    JumpTo(Jump, u32),
    ReturnValue(Kind),
    ReturnVoid,
    /// With the constant at an index.
    OnConstant(ConstantUse, u16),
    /// Calls the method that the constant at an index names, of so many places of arguments.
    InvokeInterface(u16, u8),
}
