ghost use Rattle.std.specs.Prelude.{◌≡◌, ◌+◌, max, IfOk};
ghost use Rattle.jp_pred.specs.Kinds.{is_reference};
ghost use Rattle.gen_body.specs.Codes.{jump_where, opposite, is_equal, jump_by, jump_by_zero, jump_by_null};
ghost use Rattle.gen_code.specs.Emitted.{literal_as, code_of};

use jp_meaning::{TypedExpr, TypedKind};
use jp_pred::Ty;
use jp_store::Test;
use jvm_table::Jump;
use std::alloc::AllocError;

/// What an expression is known to be: the number 0, `null`, or anything.
#[derive(Clone, Copy)]
pub enum Literal {
    Zero,
    Nil,
    Anything,
}

#[tactic(auto, unfolding(crate::specs::Emitted::code_of))]
pub fn literal_of(e: &TypedExpr) -> Literal
    ensures { literal_as result ≡ (code_of e.now).literal }
{
    match &e.kind {
        TypedKind::Number { value, hex: _ } => {
            if *value == 0 {
                Literal::Zero
            } else {
                Literal::Anything
            }
        }
        TypedKind::Null => Literal::Nil,
        TypedKind::Truth(_)
        | TypedKind::This
        | TypedKind::Local(_)
        | TypedKind::Unary { .. }
        | TypedKind::Binary { .. }
        | TypedKind::Cond { .. }
        | TypedKind::Cast { .. }
        | TypedKind::InstanceOf { .. }
        | TypedKind::Field { .. }
        | TypedKind::Static { .. }
        | TypedKind::Length(_)
        | TypedKind::Index { .. }
        | TypedKind::CallVirtual { .. }
        | TypedKind::CallStatic { .. }
        | TypedKind::CallSuper { .. }
        | TypedKind::New { .. }
        | TypedKind::NewArray { .. }
        | TypedKind::Print(_)
        | TypedKind::Show(_)
        | TypedKind::Read => Literal::Anything,
    }
}

/// Whether an expression's values are references.
#[tactic(auto, unfolding(crate::specs::Emitted::code_of))]
pub fn has_reference(e: &TypedExpr) -> bool
    ensures { result ≡ is_reference (code_of e.now).ty }
{
    is_reference(&e.ty)
}

/// Whether a type's values are references.
fn is_reference(ty: &Ty) -> bool
    ensures { result ≡ is_reference ty.now }
{
    match ty {
        Ty::Void | Ty::Int | Ty::Boolean => false,
        Ty::Class(_) | Ty::IntArray | Ty::BooleanArray | Ty::ClassArray(_) => true,
    }
}

/// The greater of two numbers of places.
pub fn greater(a: usize, b: usize) -> usize
    ensures { result ≡ max a b }
{
    if a < b { b } else { a }
}

/// So many places above some.
pub fn above(below: usize, places: usize) -> Result<usize, AllocError>
    ensures { IfOk result (λ sum. sum ≡ below + places) }
{
    below.checked_add(places).ok_or(AllocError)
}

/// A jump where an int on top is another than 0, or is 0.
pub fn jump_where(want: bool) -> Jump
    ensures { result ≡ jump_where want }
{
    if want {
        Jump::IfZero(Test::NotEqual)
    } else {
        Jump::IfZero(Test::Equal)
    }
}

fn opposite(test: Test) -> Test
    ensures { result ≡ opposite test }
{
    match test {
        Test::Equal => Test::NotEqual,
        Test::NotEqual => Test::Equal,
        Test::Less => Test::GreaterOrEqual,
        Test::GreaterOrEqual => Test::Less,
        Test::Greater => Test::LessOrEqual,
        Test::LessOrEqual => Test::Greater,
    }
}

fn is_equal(test: Test) -> bool
    ensures { result ≡ is_equal test }
{
    match test {
        Test::Equal => true,
        Test::NotEqual => false,
        Test::Less => false,
        Test::GreaterOrEqual => false,
        Test::Greater => false,
        Test::LessOrEqual => false,
    }
}

/// A jump where two references, or two ints, pass a test as is wanted.
pub fn jump_by(references: bool, test: Test, want: bool) -> Jump
    ensures { result ≡ jump_by references test want }
{
    match (references, want) {
        (true, true) => Jump::IfSame(is_equal(test)),
        (true, false) => Jump::IfSame(!is_equal(test)),
        (false, true) => Jump::IfInts(test),
        (false, false) => Jump::IfInts(opposite(test)),
    }
}

/// A jump where an int passes a test against 0, as is wanted.
pub fn jump_by_zero(test: Test, want: bool) -> Jump
    ensures { result ≡ jump_by_zero test want }
{
    if want {
        Jump::IfZero(test)
    } else {
        Jump::IfZero(opposite(test))
    }
}

/// A jump where a reference passes a test against null, as is wanted.
pub fn jump_by_null(test: Test, want: bool) -> Jump
    ensures { result ≡ jump_by_null test want }
{
    if want {
        Jump::IfNull(is_equal(test))
    } else {
        Jump::IfNull(!is_equal(test))
    }
}
