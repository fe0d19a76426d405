ghost use Rattle.std.specs.Prelude.{◌+◌, ◌<◌, ◌^◌, ◌∷◌, [], max, negsuc, codes, IfOk, OnOk};
ghost use Rattle.jp_store.specs.declared.operator.BinaryOp.TheVariants.{Xor};
ghost use Rattle.jp_meaning.specs.Descriptors.{internal_name, method_of, key_of, elements_of};
ghost use Rattle.jvm_table.specs.declared.instr.Instr.TheVariants as instr;
ghost use Rattle.jvm_table.specs.declared.instr.Jump.TheVariants.{Always};
ghost use Rattle.jvm_table.specs.declared.instr.ConstantUse.TheVariants as by;
ghost use Rattle.code_asm.specs.Items.{FieldOf, ClassOf, Plain, Uses, Branch, Mark};
ghost use Rattle.gen_body.specs.Codes.{choose_truth, named, family, virtual_call, construction, io};
ghost use Rattle.gen_code.specs.Emitted.{array_items};
ghost use Rattle.gen_parts.specs.Emits.{Adds, Ends, skipped};

use gen_code::{Body, above, greater};
use jp_pred::{Name, Ty};
use jp_store::{BinaryOp, Kind};
use jvm_table::{ConstantUse, Instr, Jump};
use std::alloc::AllocError;

// What ends the code of an expression, behind that of its parts. Each answers how many places of the stack the whole takes
// at most, by how many its parts take. The error is want of memory, or of numbers for places.

/// An instruction that names nothing.
pub fn end_plain(code: &mut Body, instr: Instr, need: usize) -> Result<usize, AllocError>
    ensures { IfOk result (λ places. Ends code.old code.new (Plain instr ∷ []) places need) }
{
    code.plain(instr)?;
    Ok(need)
}

/// An instruction on two values.
pub fn end_two(
    code: &mut Body,
    instr: Instr,
    first: usize,
    second: usize,
) -> Result<usize, AllocError>
    ensures { IfOk result (λ places. Ends code.old code.new (Plain instr ∷ []) places (max first (1 + second))) }
{
    code.plain(instr)?;
    Ok(greater(first, above(1, second)?))
}

/// An instruction that names a class.
pub fn end_class(
    code: &mut Body,
    constant_use: ConstantUse,
    class: &Name,
    need: usize,
) -> Result<usize, AllocError>
    ensures { IfOk result (λ places. Ends code.old code.new (Uses constant_use (ClassOf (internal_name class.now)) ∷ []) places need) }
{
    code.use_class(constant_use, class)?;
    Ok(need)
}

/// Reads a field of an object, by the class that declares it, its name and its type.
pub fn end_field(
    code: &mut Body,
    class: &Name,
    name: &Name,
    ty: &Ty,
    need: usize,
) -> Result<usize, AllocError>
    ensures { IfOk result (λ places. Ends code.old code.new (Uses by.GetField (FieldOf (key_of class.now name.now ty.now)) ∷ []) places need) }
{
    code.use_field(ConstantUse::GetField, class, name, ty)?;
    Ok(need)
}

/// `~`, by the bits that differ from -1.
pub fn end_complement(code: &mut Body, need: usize) -> Result<usize, AllocError>
    ensures { IfOk result (λ places. Ends code.old code.new (Plain (instr.PushInt (negsuc 0)) ∷ Plain (instr.Binary Xor) ∷ []) places (max need 2)) }
{
    code.plain(Instr::PushInt(-1))?;
    code.plain(Instr::Binary(BinaryOp::Xor))?;
    Ok(greater(need, 2))
}

/// 1 or 0, from a test on.
pub fn end_test(code: &mut Body, no: usize, need: usize) -> Result<usize, AllocError>
    requires { no + 1 < 2 ^ 64 }
    ensures { IfOk result (λ places. Ends code.old code.new (choose_truth no) places (max need 1)) }
{
    code.choose_truth(no)?;
    Ok(greater(need, 1))
}

/// Calls a method on its receiver, which takes `first` places; its arguments take `rest` above it.
pub fn end_virtual(
    code: &mut Body,
    is_interface: bool,
    class: &Name,
    name: &Name,
    params: &[Ty],
    answer: &Ty,
    first: usize,
    rest: usize,
) -> Result<usize, AllocError>
    ensures { IfOk result (λ places. Ends code.old code.new (virtual_call is_interface (method_of class.now name.now params.now answer.now) params.now answer.now ∷ []) places (max (max first (1 + rest)) 1)) }
{
    code.invoke_virtual(is_interface, class, name, params, answer)?;
    Ok(greater(greater(first, above(1, rest)?), 1))
}

/// Calls a static method.
pub fn end_static_call(
    code: &mut Body,
    class: &Name,
    name: &Name,
    params: &[Ty],
    answer: &Ty,
    need: usize,
) -> Result<usize, AllocError>
    ensures { IfOk result (λ places. Ends code.old code.new (Uses by.InvokeStatic (named (method_of class.now name.now params.now answer.now) params.now answer.now) ∷ []) places (max need 1)) }
{
    code.use_method(
        ConstantUse::InvokeStatic,
        class,
        name.bytes(),
        params,
        answer,
    )?;
    Ok(greater(need, 1))
}

/// Calls the superclass's method on the receiver, which lies below the arguments.
pub fn end_super(
    code: &mut Body,
    class: &Name,
    name: &Name,
    params: &[Ty],
    answer: &Ty,
    rest: usize,
) -> Result<usize, AllocError>
    ensures { IfOk result (λ places. Ends code.old code.new (Uses by.InvokeSpecial (family (method_of class.now name.now params.now answer.now) params.now answer.now) ∷ []) places (max (1 + rest) 1)) }
{
    code.invoke_super(class, name, params, answer)?;
    Ok(greater(above(1, rest)?, 1))
}

/// Makes an object, which stands twice on the stack.
pub fn begin_new(code: &mut Body, class: &Name) -> Result<(), AllocError>
    ensures { OnOk result (Adds code.old code.new (Uses by.MakeObject (ClassOf (internal_name class.now)) ∷ Plain instr.Dup ∷ [])) }
{
    code.use_class(ConstantUse::MakeObject, class)?;
    code.plain(Instr::Dup)
}

/// Calls the constructor of the object that stands twice below the arguments.
pub fn end_new(
    code: &mut Body,
    class: &Name,
    params: &[Ty],
    rest: usize,
) -> Result<usize, AllocError>
    ensures { IfOk result (λ places. Ends code.old code.new (construction class.now params.now ∷ []) places (2 + rest)) }
{
    code.construct(class, params)?;
    above(2, rest)
}

/// Makes an array of elements of a type.
pub fn end_array(code: &mut Body, elem: &Ty, need: usize) -> Result<usize, AllocError>
    ensures { IfOk result (λ places. Ends code.old code.new (array_items (elements_of elem.now)) places need) }
{
    code.make_array(elem)?;
    Ok(need)
}

/// Prints a number.
pub fn end_print(code: &mut Body, need: usize) -> Result<usize, AllocError>
    ensures { IfOk result (λ places. Ends code.old code.new (io (codes "print") (codes "(I)V") ∷ []) places (max need 1)) }
{
    code.use_io(b"print", b"(I)V")?;
    Ok(greater(need, 1))
}

/// Goes over what stands for a false test, which begins here.
pub fn put_between(code: &mut Body, label: usize) -> Result<(), AllocError>
    requires { label + 1 < 2 ^ 64 }
    ensures { OnOk result (Adds code.old code.new (Branch Always (label + 1) ∷ Mark label ∷ [])) }
{
    code.branch(Jump::Always, label + 1)?;
    code.mark(label)
}

/// The place behind both values of a choice, of which the test takes `tested` places.
pub fn end_choice(
    code: &mut Body,
    label: usize,
    tested: usize,
    first: usize,
    second: usize,
) -> Result<usize, AllocError>
    requires { label + 1 < 2 ^ 64 }
    ensures { IfOk result (λ places. Ends code.old code.new (Mark (label + 1) ∷ []) places (max tested (max first second))) }
{
    code.mark(label + 1)?;
    Ok(greater(tested, greater(first, second)))
}

/// A jump by a value.
pub fn end_jump(code: &mut Body, jump: Jump, to: usize, need: usize) -> Result<usize, AllocError>
    ensures { IfOk result (λ places. Ends code.old code.new (Branch jump to ∷ []) places (max need 1)) }
{
    code.branch(jump, to)?;
    Ok(greater(need, 1))
}

/// A jump by two values.
pub fn end_second_jump(
    code: &mut Body,
    jump: Jump,
    to: usize,
    first: usize,
    second: usize,
) -> Result<usize, AllocError>
    ensures { IfOk result (λ places. Ends code.old code.new (Branch jump to ∷ []) places (max (max first (1 + second)) 1)) }
{
    code.branch(jump, to)?;
    Ok(greater(greater(first, above(1, second)?), 1))
}

/// The place behind two tests, if the first goes over the second.
pub fn end_other(
    code: &mut Body,
    decides: bool,
    want: bool,
    skip: usize,
    first: usize,
    second: usize,
) -> Result<usize, AllocError>
    ensures { IfOk result (λ places. Ends code.old code.new (skipped decides want skip) places (max (max first second) 1)) }
{
    match (decides, want) {
        (true, true) => Ok(greater(greater(first, second), 1)),
        (false, false) => Ok(greater(greater(first, second), 1)),
        (true, false) => end_skip(code, skip, first, second),
        (false, true) => end_skip(code, skip, first, second),
    }
}

fn end_skip(code: &mut Body, skip: usize, first: usize, second: usize) -> Result<usize, AllocError>
    ensures { IfOk result (λ places. Ends code.old code.new (Mark skip ∷ []) places (max (max first second) 1)) }
{
    code.mark(skip)?;
    Ok(greater(greater(first, second), 1))
}
