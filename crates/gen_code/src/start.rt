ghost use Rattle.std.specs.Prelude.{◌≡◌, ◌+◌, ◌<◌, ◌++◌, ◌∷◌, [], length, option_copied, OnOk};
ghost use Rattle.jp_pred.specs.Shapes.{field_type};
ghost use Rattle.jp_meaning.specs.Members.{step_type};
ghost use Rattle.code_asm.specs.Lines.{lines_of};
ghost use Rattle.gen_body.specs.Statements.{push_default};
ghost use Rattle.gen_code.specs.Emitted.{root_code};
ghost use Rattle.gen_body.specs.Members.{step_code, steps_code, path_code, store_code, alias_code, aliases_code, end_code};

use crate::Body;
use crate::names::kind_of_type;
use jp_pred::{Hier, Name, Path, PathStep, Ty, class_named};
use jp_store::Kind;
use jvm_table::{ConstantUse, Instr};
use std::alloc::AllocError;

impl Body {
    // Reads a field of the object on the stack, if its type is known.
    fn step(&mut self, ty: Option<&Ty>, step: &PathStep) -> Result<(), AllocError>
        ensures lines { OnOk result (self.new.lines.items ≡ self.old.lines.items ++ lines_of (step_code (option_copied ty.entry) step.now)) }
        ensures labels { OnOk result (self.new.labels ≡ self.old.labels) }
    {
        match ty {
            None => Ok(()),
            Some(ty) => self.use_field(ConstantUse::GetField, &step.class, &step.field, ty),
        }
    }

    // Goes on from the object on the stack.
    fn steps(&mut self, hier: &Hier, steps: &[PathStep]) -> Result<(), AllocError>
        ensures lines { OnOk result (self.new.lines.items ≡ self.old.lines.items ++ lines_of (steps_code hier.now steps.now)) }
        ensures labels { OnOk result (self.new.labels ≡ self.old.labels) }
    {
        match steps.split_first() {
            None => Ok(()),
            Some((first, rest)) => {
                self.step(step_type(hier, first), first)?;
                self.steps(hier, rest)
            }
        }
    }

    // Pushes the value at a path, to one of a kind.
    fn path(&mut self, hier: &Hier, path: &Path, kind: Option<Kind>) -> Result<(), AllocError>
        ensures lines { OnOk result (self.new.lines.items ≡ self.old.lines.items ++ lines_of (path_code hier.now path.now.root path.now.steps kind)) }
        ensures labels { OnOk result (self.new.labels ≡ self.old.labels) }
    {
        match path.steps.as_slice().split_first() {
            None => self.load_root(path.root, kind),
            Some((first, rest)) => {
                self.plain(Instr::Load(Kind::Reference, u16::from(path.root)))?;
                self.step(step_type(hier, first), first)?;
                self.steps(hier, rest)
            }
        }
    }

    // Pushes the value of a root of paths, which is of a kind.
    fn load_root(&mut self, root: u8, kind: Option<Kind>) -> Result<(), AllocError>
        ensures lines { OnOk result (self.new.lines.items ≡ self.old.lines.items ++ lines_of (root_code root kind)) }
        ensures labels { OnOk result (self.new.labels ≡ self.old.labels) }
    {
        match kind {
            None => Ok(()),
            Some(kind) => self.plain(Instr::Load(kind, u16::from(root))),
        }
    }

    // Stores the value of an alias in a local.
    fn alias(&mut self, hier: &Hier, slot: u8, path: &Path, ty: &Ty) -> Result<(), AllocError>
        ensures lines { OnOk result (self.new.lines.items ≡ self.old.lines.items ++ lines_of (alias_code hier.now slot (path.now, ty.now))) }
        ensures labels { OnOk result (self.new.labels ≡ self.old.labels) }
    {
        self.path(hier, path, kind_of_type(ty))?;
        self.store_local(kind_of_type(ty), slot)
    }

    /// Stores the values of a method's aliases in the locals from one on.
    pub fn aliases(
        &mut self,
        hier: &Hier,
        slot: u8,
        aliases: &[(Path, Ty)],
    ) -> Result<(), AllocError>
        requires { slot + length aliases.now < 256 }
        ensures lines { OnOk result (self.new.lines.items ≡ self.old.lines.items ++ lines_of (aliases_code hier.now slot aliases.now)) }
        ensures labels { OnOk result (self.new.labels ≡ self.old.labels) }
    {
        match aliases.split_first() {
            None => Ok(()),
            Some((first, rest)) => {
                self.alias(hier, slot, &first.0, &first.1)?;
                self.aliases(hier, slot + 1, rest)
            }
        }
    }

    /// What stands at the end of a member with such a result: a return of the value that a variable of that kind starts with.
    pub fn end(&mut self, kind: Option<Kind>) -> Result<(), AllocError>
        ensures lines { OnOk result (self.new.lines.items ≡ self.old.lines.items ++ lines_of (end_code kind)) }
        ensures labels { OnOk result (self.new.labels ≡ self.old.labels) }
    {
        match kind {
            None => self.plain(Instr::ReturnVoid),
            Some(kind) => {
                self.push_default(kind)?;
                self.plain(Instr::ReturnValue(kind))
            }
        }
    }

    /// Pushes what a variable of a kind starts with.
    pub fn push_default(&mut self, kind: Kind) -> Result<(), AllocError>
        ensures lines { OnOk result (self.new.lines.items ≡ self.old.lines.items ++ lines_of (push_default kind ∷ [])) }
        ensures labels { OnOk result (self.new.labels ≡ self.old.labels) }
    {
        match kind {
            Kind::Number => self.plain(Instr::PushInt(0)),
            Kind::LongNumber => self.plain(Instr::PushLong(0)),
            Kind::Reference => self.plain(Instr::PushNull),
        }
    }

    // Pops a value of a kind into a local.
    fn store_local(&mut self, kind: Option<Kind>, slot: u8) -> Result<(), AllocError>
        ensures lines { OnOk result (self.new.lines.items ≡ self.old.lines.items ++ lines_of (store_code slot kind)) }
        ensures labels { OnOk result (self.new.labels ≡ self.old.labels) }
    {
        match kind {
            None => Ok(()),
            Some(kind) => self.plain(Instr::Store(kind, u16::from(slot))),
        }
    }
}

// The declared type of a step's field.
fn step_type<'a>(hier: &'a Hier, step: &PathStep) -> Option<&'a Ty>
    ensures { option_copied result ≡ step_type hier.now step.now }
{
    let class = class_named(hier.classes.as_slice(), step.class.bytes())?;
    field_type(class.fields.as_slice(), step.field.bytes())
}

// The type of the first field of that name.
fn field_type<'a>(fields: &'a [(Name, Ty)], name: &[u8]) -> Option<&'a Ty>
    ensures { option_copied result ≡ field_type name.now fields.now }
{
    for field in fields {
        if field.0.bytes() == name {
            return Some(&field.1);
        }
    }
    None
}
