ghost use Rattle.std.specs.Prelude.{◌≡◌, ◌+◌, ◌<◌, ◌^◌, ◌++◌, ◌∷◌, [], cond, pos, codes, IfOk, OnOk};
ghost use Rattle.jp_store.specs.declared.value.Kind.TheVariants.{Reference};
ghost use Rattle.jp_meaning.specs.Descriptors.{internal_name, method_of, key_of};
ghost use Rattle.code_trace.specs.Calls.{key_of_method};
ghost use Rattle.code_asm.specs.declared.line.Line.TheVariants as line;
ghost use Rattle.code_asm.specs.Items.{ClassOf, FieldOf, Item, Plain, Uses, Branch, Mark};
ghost use Rattle.code_asm.specs.Lines.{lines_of};
ghost use Rattle.gen_body.specs.Codes.{choose_truth, push_int, named};

use crate::names::{field_name, internal_name, method_name};
use code_asm::{Line, Named};
use jp_pred::{Name, Ty};
use jvm_table::{ConstantUse, Instr, Jump};
use std::alloc::{AllocError, Global};

/// Lines of code that are being written, and how many labels they have.
#[derive(Drop)]
pub struct Body {
    pub alloc: Global,
    pub lines: Vec<Line>,
    pub labels: usize,
}

impl Body {
    /// One more line.
    pub fn add(&mut self, line: Line) -> Result<(), AllocError>
        ensures lines { OnOk result (self.new.lines.items ≡ self.old.lines.items ++ line ∷ []) }
        ensures labels { OnOk result (self.new.labels ≡ self.old.labels) }
    {
        Ok(self.lines.push(line)?)
    }

    /// An instruction that names nothing.
    pub fn plain(&mut self, instr: Instr) -> Result<(), AllocError>
        ensures lines { OnOk result (self.new.lines.items ≡ self.old.lines.items ++ lines_of (Plain instr ∷ [])) }
        ensures labels { OnOk result (self.new.labels ≡ self.old.labels) }
    {
        self.add(Line::Plain(instr))
    }

    pub fn branch(&mut self, jump: Jump, label: usize) -> Result<(), AllocError>
        ensures lines { OnOk result (self.new.lines.items ≡ self.old.lines.items ++ lines_of (Branch jump label ∷ [])) }
        ensures labels { OnOk result (self.new.labels ≡ self.old.labels) }
    {
        self.add(Line::Branch(jump, label))
    }

    pub fn mark(&mut self, label: usize) -> Result<(), AllocError>
        ensures lines { OnOk result (self.new.lines.items ≡ self.old.lines.items ++ lines_of (Mark label ∷ [])) }
        ensures labels { OnOk result (self.new.labels ≡ self.old.labels) }
    {
        self.add(Line::Mark(label))
    }

    /// So many labels, and the first of them.
    pub fn new_labels(&mut self, count: usize) -> Result<usize, AllocError>
        ensures first { IfOk result (λ n. n ≡ self.old.labels) }
        ensures fits { OnOk result (self.old.labels + count < 2 ^ 64) }
        ensures more { OnOk result (self.new.labels ≡ self.old.labels + count) }
        ensures lines { OnOk result (self.new.lines.items ≡ self.old.lines.items) }
    {
        let first = self.labels;
        self.labels = first.checked_add(count).ok_or(AllocError)?;
        Ok(first)
    }

    /// 1, or 0 at a label, with one more behind it.
    pub fn choose_truth(&mut self, no: usize) -> Result<(), AllocError>
        requires { no + 1 < 2 ^ 64 }
        ensures lines { OnOk result (self.new.lines.items ≡ self.old.lines.items ++ lines_of (choose_truth no)) }
        ensures labels { OnOk result (self.new.labels ≡ self.old.labels) }
    {
        self.plain(Instr::PushInt(1))?;
        self.branch(Jump::Always, no + 1)?;
        self.mark(no)?;
        self.plain(Instr::PushInt(0))?;
        self.mark(no + 1)
    }

    /// Pushes an int, by a constant where it takes more than two bytes.
    pub fn push_int(&mut self, n: i32) -> Result<(), AllocError>
        ensures lines { OnOk result (self.new.lines.items ≡ self.old.lines.items ++ lines_of (push_int n ∷ [])) }
        ensures labels { OnOk result (self.new.labels ≡ self.old.labels) }
    {
        if -32_768 <= n && n < 32_768 {
            self.plain(Instr::PushInt(n))
        } else {
            self.add(Line::Uses(ConstantUse::PushConstant, Named::Int(n)))
        }
    }

    /// An instruction that names a class.
    pub fn use_class(&mut self, constant_use: ConstantUse, class: &Name) -> Result<(), AllocError>
        ensures lines { OnOk result (self.new.lines.items ≡ self.old.lines.items ++ lines_of (Uses constant_use (ClassOf (internal_name class.now)) ∷ [])) }
        ensures labels { OnOk result (self.new.labels ≡ self.old.labels) }
    {
        let name = internal_name(self.alloc, class)?;
        self.add(Line::Uses(constant_use, Named::Class(name)))
    }

    /// An instruction that names a field, by the class that declares it, its name and its type.
    pub fn use_field(
        &mut self,
        constant_use: ConstantUse,
        class: &Name,
        name: &Name,
        ty: &Ty,
    ) -> Result<(), AllocError>
        ensures lines { OnOk result (self.new.lines.items ≡ self.old.lines.items ++ lines_of (Uses constant_use (FieldOf (key_of class.now name.now ty.now)) ∷ [])) }
        ensures labels { OnOk result (self.new.labels ≡ self.old.labels) }
    {
        let field = field_name(self.alloc, class, name, ty)?;
        self.add(Line::Uses(constant_use, Named::Field(field)))
    }

    /// An instruction that names a method, by its class, its name, the types of its parameters and that of its result.
    pub fn use_method(
        &mut self,
        constant_use: ConstantUse,
        class: &Name,
        name: &[u8],
        params: &[Ty],
        answer: &Ty,
    ) -> Result<(), AllocError>
        ensures lines { OnOk result (self.new.lines.items ≡ self.old.lines.items ++ lines_of (Uses constant_use (named (method_of class.now name.now params.now answer.now) params.now answer.now) ∷ [])) }
        ensures labels { OnOk result (self.new.labels ≡ self.old.labels) }
    {
        let method = method_name(self.alloc, class, name, params, answer)?;
        self.add(Line::Uses(constant_use, Named::Method(method)))
    }
}
