ghost use Rattle.std.specs.Prelude.{◌∷◌, [], pos, cond, codes, IfOk};
ghost use Rattle.std.specs.Int.{w32, int_wrap};
ghost use Rattle.jp_meaning.specs.Descriptors.{key_of};
ghost use Rattle.jvm_table.specs.declared.instr.Instr.TheVariants.{PushInt};
ghost use Rattle.jvm_table.specs.declared.instr.ConstantUse.TheVariants as by;
ghost use Rattle.code_asm.specs.Items.{TextOf, FieldOf, Plain, Uses};
ghost use Rattle.gen_body.specs.Codes.{push_int, io};
ghost use Rattle.gen_parts.specs.Emits.{Puts, leaf_part};

use crate::numbers::int_of;
use gen_code::Body;
use jp_pred::{Name, Ty};
use jvm_table::{ConstantUse, Instr};
use std::alloc::AllocError;

// Expressions without a part. Each answers the one place of the stack that it takes. The error is want of memory.

/// Pushes the int of a number as it is written.
pub fn put_number(code: &mut Body, value: u32) -> Result<usize, AllocError>
    ensures { IfOk result (λ places. Puts code.old code.new places (leaf_part (push_int (int_wrap w32 (pos value)) ∷ []) code.old.labels)) }
{
    code.push_int(int_of(value))?;
    Ok(1)
}

/// Pushes 1 or 0.
pub fn put_truth(code: &mut Body, value: bool) -> Result<usize, AllocError>
    ensures { IfOk result (λ places. Puts code.old code.new places (leaf_part (Plain (PushInt (cond value (pos 1) (pos 0))) ∷ []) code.old.labels)) }
{
    code.push_truth(value)?;
    Ok(1)
}

/// Pushes the value of a static field, by the class that declares it, its name and its type.
pub fn put_static(code: &mut Body, class: &Name, name: &Name, ty: &Ty) -> Result<usize, AllocError>
    ensures { IfOk result (λ places. Puts code.old code.new places (leaf_part (Uses by.GetStatic (FieldOf (key_of class.now name.now ty.now)) ∷ []) code.old.labels)) }
{
    code.use_field(ConstantUse::GetStatic, class, name, ty)?;
    Ok(1)
}

/// Prints a text that is known.
pub fn put_show(code: &mut Body, text: &Name) -> Result<usize, AllocError>
    ensures { IfOk result (λ places. Puts code.old code.new places (leaf_part (Uses by.PushConstant (TextOf text.now) ∷ io (codes "text") (codes "(Ljava/lang/String;)V") ∷ []) code.old.labels)) }
{
    code.show(text)?;
    Ok(1)
}

/// Reads a number.
pub fn put_read(code: &mut Body) -> Result<usize, AllocError>
    ensures { IfOk result (λ places. Puts code.old code.new places (leaf_part (io (codes "read") (codes "()I") ∷ []) code.old.labels)) }
{
    code.use_io(b"read", b"()I")?;
    Ok(1)
}

/// An instruction that pushes a value.
pub fn put_plain(code: &mut Body, instr: Instr) -> Result<usize, AllocError>
    ensures { IfOk result (λ places. Puts code.old code.new places (leaf_part (Plain instr ∷ []) code.old.labels)) }
{
    code.plain(instr)?;
    Ok(1)
}
