ghost use Rattle.std.specs.Prelude.{◌≡◌, ◌++◌, OnOk};
ghost use Rattle.jp_store.specs.declared.value.Kind.TheVariants.{Number};
ghost use Rattle.code_asm.specs.Lines.{lines_of};
ghost use Rattle.gen_body.specs.Codes.{LocalAt};
ghost use Rattle.gen_body.specs.Statements.{parts_of, copy_parts, get_place, put_place, step_of, step_place, bump_place};
ghost use Rattle.gen_code.specs.Emitted.{local_place, shape_of};

use crate::Body;
use crate::names::{element_kind_of, kind_of_type};
use jp_meaning::{TypedExpr, TypedKind};
use jp_store::{BinaryOp, Kind};
use jvm_table::{ConstantUse, Instr};
use std::alloc::AllocError;

impl Body {
    /// Pushes the parts of a place once more.
    pub fn copy_parts(&mut self, left: &TypedExpr) -> Result<(), AllocError>
        ensures lines { OnOk result (self.new.lines.items ≡ self.old.lines.items ++ lines_of (copy_parts (shape_of left.now).place)) }
        ensures labels { OnOk result (self.new.labels ≡ self.old.labels) }
    {
        match parts_of(left) {
            1 => self.plain(Instr::Dup),
            2 => self.plain(Instr::DupTwo),
            _ => Ok(()),
        }
    }

    /// Pushes the value of a place, whose parts stand on the stack.
    #[tactic(auto, unfolding(crate::specs::Emitted::shape_of))]
    pub fn get_place(&mut self, left: &TypedExpr) -> Result<(), AllocError>
        ensures lines { OnOk result (self.new.lines.items ≡ self.old.lines.items ++ lines_of (get_place (shape_of left.now).place)) }
        ensures labels { OnOk result (self.new.labels ≡ self.old.labels) }
    {
        match &left.kind {
            TypedKind::Local(slot) => self.load_local(kind_of_type(&left.ty), *slot),
            TypedKind::Field { class, name, .. } => {
                self.use_field(ConstantUse::GetField, class, name, &left.ty)
            }
            TypedKind::Static { class, name } => {
                self.use_field(ConstantUse::GetStatic, class, name, &left.ty)
            }
            TypedKind::Index { .. } => self.plain(Instr::LoadElement(element_kind_of(&left.ty))),
            TypedKind::Number { .. }
            | TypedKind::Truth(_)
            | TypedKind::Null
            | TypedKind::This
            | TypedKind::Unary { .. }
            | TypedKind::Binary { .. }
            | TypedKind::Cond { .. }
            | TypedKind::Cast { .. }
            | TypedKind::InstanceOf { .. }
            | TypedKind::Length(_)
            | TypedKind::CallVirtual { .. }
            | TypedKind::CallStatic { .. }
            | TypedKind::CallSuper { .. }
            | TypedKind::New { .. }
            | TypedKind::NewArray { .. }
            | TypedKind::Print(_)
            | TypedKind::Show(_)
            | TypedKind::Read => Ok(()),
        }
    }

    /// Pops a value into a place, whose parts stand below it.
    #[tactic(auto, unfolding(crate::specs::Emitted::shape_of))]
    pub fn put_place(&mut self, left: &TypedExpr) -> Result<(), AllocError>
        ensures lines { OnOk result (self.new.lines.items ≡ self.old.lines.items ++ lines_of (put_place (shape_of left.now).place)) }
        ensures labels { OnOk result (self.new.labels ≡ self.old.labels) }
    {
        match &left.kind {
            TypedKind::Local(slot) => self.keep_local(kind_of_type(&left.ty), *slot),
            TypedKind::Field { class, name, .. } => {
                self.use_field(ConstantUse::PutField, class, name, &left.ty)
            }
            TypedKind::Static { class, name } => {
                self.use_field(ConstantUse::PutStatic, class, name, &left.ty)
            }
            TypedKind::Index { .. } => self.plain(Instr::StoreElement(element_kind_of(&left.ty))),
            TypedKind::Number { .. }
            | TypedKind::Truth(_)
            | TypedKind::Null
            | TypedKind::This
            | TypedKind::Unary { .. }
            | TypedKind::Binary { .. }
            | TypedKind::Cond { .. }
            | TypedKind::Cast { .. }
            | TypedKind::InstanceOf { .. }
            | TypedKind::Length(_)
            | TypedKind::CallVirtual { .. }
            | TypedKind::CallStatic { .. }
            | TypedKind::CallSuper { .. }
            | TypedKind::New { .. }
            | TypedKind::NewArray { .. }
            | TypedKind::Print(_)
            | TypedKind::Show(_)
            | TypedKind::Read => Ok(()),
        }
    }

    fn load_local(&mut self, kind: Option<Kind>, slot: u8) -> Result<(), AllocError>
        ensures lines { OnOk result (self.new.lines.items ≡ self.old.lines.items ++ lines_of (get_place (local_place kind slot))) }
        ensures labels { OnOk result (self.new.labels ≡ self.old.labels) }
    {
        match kind {
            None => Ok(()),
            Some(kind) => self.plain(Instr::Load(kind, u16::from(slot))),
        }
    }

    fn keep_local(&mut self, kind: Option<Kind>, slot: u8) -> Result<(), AllocError>
        ensures lines { OnOk result (self.new.lines.items ≡ self.old.lines.items ++ lines_of (put_place (local_place kind slot))) }
        ensures labels { OnOk result (self.new.labels ≡ self.old.labels) }
    {
        match kind {
            None => Ok(()),
            Some(kind) => self.plain(Instr::Store(kind, u16::from(slot))),
        }
    }

    // The same, by the parts of the place and its value.
    fn step_place(&mut self, up: bool, left: &TypedExpr) -> Result<(), AllocError>
        ensures lines { OnOk result (self.new.lines.items ≡ self.old.lines.items ++ lines_of (step_place up (shape_of left.now).place)) }
        ensures labels { OnOk result (self.new.labels ≡ self.old.labels) }
    {
        self.copy_parts(left)?;
        self.get_place(left)?;
        self.plain(Instr::PushInt(1))?;
        self.plain(Instr::Binary(step_of(up)))?;
        self.put_place(left)
    }

    /// A value of a place that is one more or less, whose parts stand on the stack; a local with a number has an instruction
    /// of its own.
    #[tactic(auto, unfolding(crate::specs::Emitted::shape_of))]
    pub fn bump_place(&mut self, up: bool, left: &TypedExpr) -> Result<(), AllocError>
        ensures lines { OnOk result (self.new.lines.items ≡ self.old.lines.items ++ lines_of (bump_place up (shape_of left.now).place)) }
        ensures labels { OnOk result (self.new.labels ≡ self.old.labels) }
    {
        match &left.kind {
            TypedKind::Local(slot) => self.bump_local(up, kind_of_type(&left.ty), *slot),
            TypedKind::Field { .. } | TypedKind::Static { .. } | TypedKind::Index { .. } => {
                self.step_place(up, left)
            }
            TypedKind::Number { .. }
            | TypedKind::Truth(_)
            | TypedKind::Null
            | TypedKind::This
            | TypedKind::Unary { .. }
            | TypedKind::Binary { .. }
            | TypedKind::Cond { .. }
            | TypedKind::Cast { .. }
            | TypedKind::InstanceOf { .. }
            | TypedKind::Length(_)
            | TypedKind::CallVirtual { .. }
            | TypedKind::CallStatic { .. }
            | TypedKind::CallSuper { .. }
            | TypedKind::New { .. }
            | TypedKind::NewArray { .. }
            | TypedKind::Print(_)
            | TypedKind::Show(_)
            | TypedKind::Read => Ok(()),
        }
    }

    fn bump_local(&mut self, up: bool, kind: Option<Kind>, slot: u8) -> Result<(), AllocError>
        ensures lines { OnOk result (self.new.lines.items ≡ self.old.lines.items ++ lines_of (bump_place up (local_place kind slot))) }
        ensures labels { OnOk result (self.new.labels ≡ self.old.labels) }
    {
        match kind {
            None => Ok(()),
            Some(Kind::Number) => self.increase(up, slot),
            Some(Kind::LongNumber) => self.step_local(up, Kind::LongNumber, slot),
            Some(Kind::Reference) => self.step_local(up, Kind::Reference, slot),
        }
    }

    fn increase(&mut self, up: bool, slot: u8) -> Result<(), AllocError>
        ensures lines { OnOk result (self.new.lines.items ≡ self.old.lines.items ++ lines_of (bump_place up (LocalAt slot Number))) }
        ensures labels { OnOk result (self.new.labels ≡ self.old.labels) }
    {
        if up {
            self.plain(Instr::Increase(u16::from(slot), 1))
        } else {
            self.plain(Instr::Increase(u16::from(slot), -1))
        }
    }

    fn step_local(&mut self, up: bool, kind: Kind, slot: u8) -> Result<(), AllocError>
        ensures lines { OnOk result (self.new.lines.items ≡ self.old.lines.items ++ lines_of (step_place up (LocalAt slot kind))) }
        ensures labels { OnOk result (self.new.labels ≡ self.old.labels) }
    {
        self.plain(Instr::Load(kind, u16::from(slot)))?;
        self.plain(Instr::PushInt(1))?;
        self.plain(Instr::Binary(step_of(up)))?;
        self.plain(Instr::Store(kind, u16::from(slot)))
    }
}

/// How many values stand on the stack for a place.
#[tactic(auto, unfolding(crate::specs::Emitted::shape_of))]
pub fn parts_of(left: &TypedExpr) -> usize
    ensures { result ≡ parts_of (shape_of left.now).place }
{
    match &left.kind {
        TypedKind::Field { .. } => 1,
        TypedKind::Index { .. } => 2,
        TypedKind::Local(_)
        | TypedKind::Static { .. }
        | TypedKind::Number { .. }
        | TypedKind::Truth(_)
        | TypedKind::Null
        | TypedKind::This
        | TypedKind::Unary { .. }
        | TypedKind::Binary { .. }
        | TypedKind::Cond { .. }
        | TypedKind::Cast { .. }
        | TypedKind::InstanceOf { .. }
        | TypedKind::Length(_)
        | TypedKind::CallVirtual { .. }
        | TypedKind::CallStatic { .. }
        | TypedKind::CallSuper { .. }
        | TypedKind::New { .. }
        | TypedKind::NewArray { .. }
        | TypedKind::Print(_)
        | TypedKind::Show(_)
        | TypedKind::Read => 0,
    }
}

// The operator by which a value is one more or less.
fn step_of(up: bool) -> BinaryOp
    ensures { result ≡ step_of up }
{
    if up {
        BinaryOp::Add
    } else {
        BinaryOp::Subtract
    }
}
