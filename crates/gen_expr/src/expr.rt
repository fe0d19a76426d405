ghost use Rattle.std.specs.Prelude.{◌≡◌, ◌+◌, ◌<◌, ◌^◌, ◌∷◌, [], true, codes, IfOk, OnOk};
ghost use Rattle.std.specs.Option.{option_map};
ghost use Rattle.jp_store.specs.declared.value.Kind.TheVariants.{Reference};
ghost use Rattle.jp_meaning.specs.Descriptors.{internal_name, method_of, key_of, elements_of};
ghost use Rattle.jvm_table.specs.declared.instr.Instr.TheVariants.{Load, Dup};
ghost use Rattle.jvm_table.specs.declared.instr.ConstantUse.TheVariants as by;
ghost use Rattle.code_asm.specs.Items.{FieldOf, ClassOf, Plain, Uses, Branch};
ghost use Rattle.gen_body.specs.Codes.{named, family, virtual_call, construction, io, prefix_codes};
ghost use Rattle.gen_code.specs.Emitted.{array_items, code_of, prefix_as};
ghost use Rattle.gen_parts.specs.Emits.{Puts, core_part, value_step, value_part, done_part, test_part, all_part, one_part, row_part, between_part, at_least, second_part, received_part, otherwise_part, other_part, judges};

use gen_code::{
    Body, Infix, Prefix, above, code_has_its_shape, element_kind_of, greater, has_reference,
    infix_of, is_void, jump_by, jump_where, kind_of_type, literal_of, prefix_of,
};
use gen_parts::{
    begin_new, drop_value, end_array, end_choice, end_class, end_complement, end_field, end_jump,
    end_new, end_other, end_plain, end_print, end_second_jump, end_static_call, end_super,
    end_test, end_two, end_virtual, first_goes, give_value, is_alone, is_condition, jump_alone,
    put_between, put_local, put_number, put_plain, put_read, put_show, put_static, put_truth,
    row_need,
};
use jp_meaning::{TypedExpr, TypedKind};
use jp_pred::{Name, Ty};
use jp_store::Kind;
use jvm_table::{ConstantUse, Instr, Jump};
use std::alloc::AllocError;

/// Writes the lines that push the value of an expression, `null` where it has none, behind those that are there, and
/// answers how many places of the stack they take at most. They are gen_body's items of the expression, and take the
/// body's labels from its next one on. The error is want of memory, or of numbers for labels and places; what is written
/// then is no member's code.
#[cycle(expr)]
pub fn put_value(code: &mut Body, e: &TypedExpr) -> Result<usize, AllocError>
    ensures { IfOk result (λ places. Puts code.old code.new places (value_part e.now code.old.labels)) }
{
    code_has_its_shape();
    let need = put_core(code, e)?;
    give_value(code, is_void(e))?;
    Ok(need)
}

/// Writes the lines that evaluate an expression and leave nothing; the rest is as with its value.
pub fn put_done(code: &mut Body, e: &TypedExpr) -> Result<usize, AllocError>
    ensures { IfOk result (λ places. Puts code.old code.new places (done_part e.now code.old.labels)) }
{
    code_has_its_shape();
    let need = put_core(code, e)?;
    drop_value(code, is_void(e))?;
    Ok(need)
}

/// Writes the lines that go to a label where a condition is as wanted, and else on; the rest is as with its value.
#[cycle(expr)]
pub fn put_test(code: &mut Body, e: &TypedExpr, want: bool, to: usize) -> Result<usize, AllocError>
    ensures { IfOk result (λ places. Puts code.old code.new places (test_part e.now want to code.old.labels)) }
{
    if is_condition(e) {
        judge(code, e, want, to)
    } else {
        let need = put_value(code, e)?;
        code.branch(jump_where(want), to)?;
        Ok(need)
    }
}

/// Writes the lines that push the values of expressions, one after the other; the rest is as with one value.
#[cycle(expr)]
pub fn put_all(code: &mut Body, args: &[TypedExpr]) -> Result<usize, AllocError>
    ensures { IfOk result (λ places. Puts code.old code.new places (all_part args.now code.old.labels)) }
{
    let mut need = 0;
    let mut below = 0;
    for one in args {
        let more = put_value(code, one)?;
        need = row_need(need, below, more)?;
        below = above(below, 1)?;
    }
    Ok(need)
}

// Pushes the value of an expression, if it has one.
#[cycle(expr)]
fn put_core(code: &mut Body, e: &TypedExpr) -> Result<usize, AllocError>
    ensures { IfOk result (λ places. Puts code.old code.new places (core_part e.now code.old.labels)) }
{
    match &e.kind {
        TypedKind::Number { value, hex: _ } => put_number(code, *value),
        TypedKind::Truth(value) => put_truth(code, *value),
        TypedKind::Null => put_plain(code, Instr::PushNull),
        TypedKind::This => put_plain(code, Instr::Load(Kind::Reference, 0)),
        TypedKind::Local(slot) => put_local(code, kind_of_type(&e.ty), *slot),
        TypedKind::Unary { sign, right } => put_unary(code, prefix_of(*sign), right.get()),
        TypedKind::Binary { sign, left, right } => match infix_of(*sign) {
            None => Ok(0),
            Some(Infix::Operates(op)) => {
                let first = put_value(code, left.get())?;
                put_second(code, right.get(), Instr::Binary(op), first)
            }
            Some(Infix::Compares(_)) => put_judged(code, e),
            Some(Infix::AndThen) => put_judged(code, e),
            Some(Infix::OrElse) => put_judged(code, e),
        },
        TypedKind::Cond { test, yes, no } => {
            let label = code.new_labels(2)?;
            let tested = put_test(code, test.get(), false, label)?;
            let first = put_value(code, yes.get())?;
            put_otherwise(code, no.get(), label, tested, first)
        }
        TypedKind::Cast { class, value } => {
            put_class(code, value.get(), ConstantUse::CheckCast, class)
        }
        TypedKind::InstanceOf { value, class } => {
            put_class(code, value.get(), ConstantUse::InstanceOf, class)
        }
        TypedKind::Field {
            object,
            class,
            name,
        } => put_field(code, object.get(), class, name, &e.ty),
        TypedKind::Static { class, name } => put_static(code, class, name, &e.ty),
        TypedKind::Length(array) => put_with(code, array.get(), Instr::ArrayLength),
        TypedKind::Index { array, index } => {
            let first = put_value(code, array.get())?;
            put_second(
                code,
                index.get(),
                Instr::LoadElement(element_kind_of(&e.ty)),
                first,
            )
        }
        TypedKind::CallVirtual {
            object,
            class,
            is_interface,
            name,
            params,
            args,
        } => {
            let first = put_value(code, object.get())?;
            put_virtual(
                code,
                *is_interface,
                class,
                name,
                params.as_slice(),
                &e.ty,
                args.as_slice(),
                first,
            )
        }
        TypedKind::CallStatic {
            class,
            name,
            params,
            args,
        } => put_static_call(code, class, name, params.as_slice(), &e.ty, args.as_slice()),
        TypedKind::CallSuper {
            class,
            name,
            params,
            args,
        } => put_super(code, class, name, params.as_slice(), &e.ty, args.as_slice()),
        TypedKind::New {
            class,
            params,
            args,
        } => put_new(code, class, params.as_slice(), args.as_slice()),
        TypedKind::NewArray { elem, size } => put_array(code, elem, size.get()),
        TypedKind::Print(value) => put_print(code, value.get()),
        TypedKind::Show(text) => put_show(code, text),
        TypedKind::Read => put_read(code),
    }
}

// A value, and an instruction that names nothing.
#[cycle(expr)]
fn put_with(code: &mut Body, value: &TypedExpr, instr: Instr) -> Result<usize, AllocError>
    ensures { IfOk result (λ places. Puts code.old code.new places (one_part value.now (Plain instr ∷ []) code.old.labels)) }
{
    let need = put_value(code, value)?;
    end_plain(code, instr, need)
}

// A value, and an instruction that names a class.
#[cycle(expr)]
fn put_class(
    code: &mut Body,
    value: &TypedExpr,
    constant_use: ConstantUse,
    class: &Name,
) -> Result<usize, AllocError>
    ensures { IfOk result (λ places. Puts code.old code.new places (one_part value.now (Uses constant_use (ClassOf (internal_name class.now)) ∷ []) code.old.labels)) }
{
    let need = put_value(code, value)?;
    end_class(code, constant_use, class, need)
}

// The value of a field of an object.
#[cycle(expr)]
fn put_field(
    code: &mut Body,
    object: &TypedExpr,
    class: &Name,
    name: &Name,
    ty: &Ty,
) -> Result<usize, AllocError>
    ensures { IfOk result (λ places. Puts code.old code.new places (one_part object.now (Uses by.GetField (FieldOf (key_of class.now name.now ty.now)) ∷ []) code.old.labels)) }
{
    let need = put_value(code, object)?;
    end_field(code, class, name, ty, need)
}

// An array of so many elements.
#[cycle(expr)]
fn put_array(code: &mut Body, elem: &Ty, size: &TypedExpr) -> Result<usize, AllocError>
    ensures { IfOk result (λ places. Puts code.old code.new places (one_part size.now (array_items (elements_of elem.now)) code.old.labels)) }
{
    let need = put_value(code, size)?;
    end_array(code, elem, need)
}

// Prints a number.
#[cycle(expr)]
fn put_print(code: &mut Body, value: &TypedExpr) -> Result<usize, AllocError>
    ensures { IfOk result (λ places. Puts code.old code.new places (at_least 1 (one_part value.now (io (codes "print") (codes "(I)V") ∷ []) code.old.labels))) }
{
    let need = put_value(code, value)?;
    end_print(code, need)
}

// The second of two values, and an instruction on both.
#[cycle(expr)]
fn put_second(
    code: &mut Body,
    value: &TypedExpr,
    instr: Instr,
    first: usize,
) -> Result<usize, AllocError>
    ensures { IfOk result (λ places. Puts code.old code.new places (second_part value.now (Plain instr ∷ []) first code.old.labels)) }
{
    let need = put_value(code, value)?;
    end_two(code, instr, first, need)
}

// The second of two values, of which a test is in front of both and goes to a label where it is false.
#[cycle(expr)]
fn put_otherwise(
    code: &mut Body,
    value: &TypedExpr,
    label: usize,
    tested: usize,
    first: usize,
) -> Result<usize, AllocError>
    requires { label + 1 < 2 ^ 64 }
    ensures { IfOk result (λ places. Puts code.old code.new places (otherwise_part value.now label tested first code.old.labels)) }
{
    put_between(code, label)?;
    let second = put_value(code, value)?;
    end_choice(code, label, tested, first, second)
}

// The arguments of a call whose receiver is on the stack, and the call.
#[cycle(expr)]
fn put_virtual(
    code: &mut Body,
    is_interface: bool,
    class: &Name,
    name: &Name,
    params: &[Ty],
    answer: &Ty,
    args: &[TypedExpr],
    first: usize,
) -> Result<usize, AllocError>
    ensures { IfOk result (λ places. Puts code.old code.new places (received_part args.now (virtual_call is_interface (method_of class.now name.now params.now answer.now) params.now answer.now ∷ []) first code.old.labels)) }
{
    let rest = put_all(code, args)?;
    end_virtual(code, is_interface, class, name, params, answer, first, rest)
}

#[cycle(expr)]
fn put_static_call(
    code: &mut Body,
    class: &Name,
    name: &Name,
    params: &[Ty],
    answer: &Ty,
    args: &[TypedExpr],
) -> Result<usize, AllocError>
    ensures { IfOk result (λ places. Puts code.old code.new places (at_least 1 (row_part args.now (Uses by.InvokeStatic (named (method_of class.now name.now params.now answer.now) params.now answer.now) ∷ []) code.old.labels))) }
{
    let need = put_all(code, args)?;
    end_static_call(code, class, name, params, answer, need)
}

// A call of a family of the superclass on the receiver.
#[cycle(expr)]
fn put_super(
    code: &mut Body,
    class: &Name,
    name: &Name,
    params: &[Ty],
    answer: &Ty,
    args: &[TypedExpr],
) -> Result<usize, AllocError>
    ensures { IfOk result (λ places. Puts code.old code.new places (at_least 1 (between_part (Plain (Load Reference 0) ∷ []) 1 args.now (Uses by.InvokeSpecial (family (method_of class.now name.now params.now answer.now) params.now answer.now) ∷ []) code.old.labels))) }
{
    code.plain(Instr::Load(Kind::Reference, 0))?;
    let rest = put_all(code, args)?;
    end_super(code, class, name, params, answer, rest)
}

// A new object, made before its arguments.
#[cycle(expr)]
fn put_new(
    code: &mut Body,
    class: &Name,
    params: &[Ty],
    args: &[TypedExpr],
) -> Result<usize, AllocError>
    ensures { IfOk result (λ places. Puts code.old code.new places (between_part (Uses by.MakeObject (ClassOf (internal_name class.now)) ∷ Plain Dup ∷ []) 2 args.now (construction class.now params.now ∷ []) code.old.labels)) }
{
    begin_new(code, class)?;
    let given = put_all(code, args)?;
    end_new(code, class, params, given)
}

// The value of an operator in front of its operand.
#[cycle(expr)]
fn put_unary(code: &mut Body, sign: Option<Prefix>, right: &TypedExpr) -> Result<usize, AllocError>
    ensures { IfOk result (λ places. Puts code.old code.new places (value_step (prefix_codes (option_map prefix_as sign) (code_of right.now) code.old.labels))) }
{
    match sign {
        None => Ok(0),
        Some(sign) => match sign {
            Prefix::Plus => put_value(code, right),
            Prefix::Minus => put_with(code, right, Instr::Negate),
            Prefix::Complement => {
                let need = put_value(code, right)?;
                end_complement(code, need)
            }
            Prefix::Not => {
                let no = code.new_labels(2)?;
                let need = put_test(code, right, true, no)?;
                end_test(code, no, need)
            }
        },
    }
}

// The value of a condition with an operator, by its test.
#[cycle(expr)]
fn put_judged(code: &mut Body, e: &TypedExpr) -> Result<usize, AllocError>
    requires { judges e.now ≡ true }
    ensures { IfOk result (λ places. Puts code.old code.new places (value_part e.now code.old.labels)) }
{
    let no = code.labels;
    let need = judge(code, e, false, no)?;
    code.choose_truth(no)?;
    Ok(need)
}

// Goes to a label where a condition with an operator is as wanted, and else on. It takes two labels at least.
#[cycle(expr)]
fn judge(code: &mut Body, e: &TypedExpr, want: bool, to: usize) -> Result<usize, AllocError>
    requires { judges e.now ≡ true }
    ensures test { IfOk result (λ places. Puts code.old code.new places (test_part e.now want to code.old.labels)) }
    ensures fits { OnOk result (code.old.labels + 1 < 2 ^ 64) }
{
    match &e.kind {
        TypedKind::Unary { sign: _, right } => {
            code.new_labels(2)?;
            let need = put_test(code, right.get(), !want, to)?;
            Ok(greater(need, 1))
        }
        TypedKind::Binary { sign, left, right } => {
            let left = left.get();
            let right = right.get();
            match infix_of(*sign) {
                Some(Infix::Compares(test)) => {
                    code.new_labels(2)?;
                    let references = has_reference(left);
                    if is_alone(references, literal_of(right)) {
                        jump_one(code, left, jump_alone(references, test, want), to)
                    } else {
                        let first = put_value(code, left)?;
                        jump_second(code, right, jump_by(references, test, want), to, first)
                    }
                }
                Some(Infix::AndThen) => {
                    let skip = code.new_labels(3)? + 2;
                    let first = put_test(code, left, false, first_goes(false, want, to, skip))?;
                    put_other(code, right, false, want, to, skip, first)
                }
                Some(Infix::OrElse) => {
                    let skip = code.new_labels(3)? + 2;
                    let first = put_test(code, left, true, first_goes(true, want, to, skip))?;
                    put_other(code, right, true, want, to, skip, first)
                }
                Some(Infix::Operates(_)) => Ok(0),
                None => Ok(0),
            }
        }
        _ => Ok(0),
    }
}

// A value, and a jump by it.
#[cycle(expr)]
fn jump_one(code: &mut Body, value: &TypedExpr, jump: Jump, to: usize) -> Result<usize, AllocError>
    ensures { IfOk result (λ places. Puts code.old code.new places (at_least 1 (one_part value.now (Branch jump to ∷ []) code.old.labels))) }
{
    let need = put_value(code, value)?;
    end_jump(code, jump, to, need)
}

// The second of two values, and a jump by both.
#[cycle(expr)]
fn jump_second(
    code: &mut Body,
    value: &TypedExpr,
    jump: Jump,
    to: usize,
    first: usize,
) -> Result<usize, AllocError>
    ensures { IfOk result (λ places. Puts code.old code.new places (at_least 1 (second_part value.now (Branch jump to ∷ []) first code.old.labels))) }
{
    let need = put_value(code, value)?;
    end_second_jump(code, jump, to, first, need)
}

// The second of two tests, which the first goes over where it decides both as isn't wanted.
#[cycle(expr)]
fn put_other(
    code: &mut Body,
    right: &TypedExpr,
    decides: bool,
    want: bool,
    to: usize,
    skip: usize,
    first: usize,
) -> Result<usize, AllocError>
    ensures { IfOk result (λ places. Puts code.old code.new places (other_part right.now decides want to skip first code.old.labels)) }
{
    let second = put_test(code, right, want, to)?;
    end_other(code, decides, want, skip, first, second)
}
