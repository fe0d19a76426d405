ghost use Rattle.std.specs.Prelude.{◌≡◌, ◌+◌, ◌<◌, ◌≤◌, ◌∷◌, [], length, max, Some, None, IfOk, OnOk};
ghost use Rattle.gen_body.specs.Codes.{construction};
ghost use Rattle.gen_body.specs.Members.{aliases_code, given_to, super_code, framed, method_code, end_code, member_code};
ghost use Rattle.gen_body.specs.Correct.{slots_of};
ghost use Rattle.gen_parts.specs.Emits.{Puts, Adds, Ends};
ghost use Rattle.gen_member.specs.Blocks.{framed_part};

use crate::stmt::{Exits, put_block};
use gen_code::{Body, above, greater, kind_of_type};
use gen_expr::put_all;
use iface_codec::{Iface, IfaceMethod, MethodKind};
use jp_meaning::{TypedMember, TypedPart};
use jp_pred::{Hier, Name, Ty};
use jp_store::Kind;
use jvm_table::Instr;
use std::alloc::AllocError;

/// Writes the lines of a member of a class behind no others, with the labels from 2 on, and answers how many places of the
/// stack they take at most. A field and a method that the class hasn't have none.
pub(crate) fn put_member(
    code: &mut Body,
    hier: &Hier,
    head: &Iface,
    m: &TypedMember,
) -> Result<usize, AllocError>
    requires labels { code.old.labels ≡ 2 }
    requires slots { slots_of head.now m.now.part ≤ m.now.locals }
    ensures { IfOk result (λ places. Puts code.old code.new places (member_code hier.now head.now m.now)) }
{
    match m.part {
        TypedPart::Field(_) => Ok(0),
        TypedPart::Method(at) => match head.methods.get(usize::from(at)) {
            None => Ok(0),
            Some(method) => put_method(code, hier, method, m),
        },
        TypedPart::Constructor(_) => put_constructor(code, &head.superclass, m),
    }
}

// A method, with its aliases first.
fn put_method(
    code: &mut Body,
    hier: &Hier,
    method: &IfaceMethod,
    m: &TypedMember,
) -> Result<usize, AllocError>
    requires labels { code.old.labels ≡ 2 }
    requires slots { given_to method.now + length method.now.aliases ≤ m.now.locals }
    ensures { IfOk result (λ places. Puts code.old code.new places (method_code hier.now (Some method.now) m.now)) }
{
    put_aliases(code, hier, method, m.locals)?;
    put_framed(code, kind_of_type(&method.result), m, 1)
}

// Stores the values of a method's aliases in the locals behind those that it is given, of which there are so many.
fn put_aliases(
    code: &mut Body,
    hier: &Hier,
    method: &IfaceMethod,
    locals: u8,
) -> Result<(), AllocError>
    requires { given_to method.now + length method.now.aliases ≤ locals }
    ensures { OnOk result (Adds code.old code.new (aliases_code hier.now (given_to method.now) method.now.aliases)) }
{
    code.aliases(hier, given_to(method), method.aliases.as_slice())
}

// A constructor, which runs that of the superclass first.
fn put_constructor(
    code: &mut Body,
    superclass: &Option<Name>,
    m: &TypedMember,
) -> Result<usize, AllocError>
    requires { code.old.labels ≡ 2 }
    ensures { IfOk result (λ places. Puts code.old code.new places (framed None (super_code superclass.now m.now 2) m.now)) }
{
    let need = put_super_call(code, superclass, m)?;
    put_framed(code, None, m, need)
}

// Runs the constructor of the superclass, if there is one, on the same object.
fn put_super_call(
    code: &mut Body,
    superclass: &Option<Name>,
    m: &TypedMember,
) -> Result<usize, AllocError>
    ensures { IfOk result (λ places. Puts code.old code.new places (super_code superclass.now m.now code.old.labels)) }
{
    match superclass {
        None => Ok(0),
        Some(class) => {
            code.plain(Instr::Load(Kind::Reference, 0))?;
            let rest = put_all(code, m.super_args.as_slice())?;
            end_super_call(code, class, m.super_params.as_slice(), rest)
        }
    }
}

fn end_super_call(
    code: &mut Body,
    class: &Name,
    params: &[Ty],
    rest: usize,
) -> Result<usize, AllocError>
    ensures { IfOk result (λ places. Ends code.old code.new (construction class.now params.now ∷ []) places (1 + rest)) }
{
    code.construct(class, params)?;
    above(1, rest)
}

// The block of a member with such a result, behind what stands at its start, and what stands at its end. Outside of loops
// `break` and `continue` have no label.
fn put_framed(
    code: &mut Body,
    kind: Option<Kind>,
    m: &TypedMember,
    start: usize,
) -> Result<usize, AllocError>
    ensures { IfOk result (λ places. Puts code.old code.new places (framed_part kind m.now start code.old.labels)) }
{
    let need = put_block(code, m.block.as_slice(), Exits { out: 0, back: 1 })?;
    end_member(code, kind, start, need)
}

fn end_member(
    code: &mut Body,
    kind: Option<Kind>,
    start: usize,
    need: usize,
) -> Result<usize, AllocError>
    ensures { IfOk result (λ places. Ends code.old code.new (end_code kind) places (max start (max need 1))) }
{
    code.end(kind)?;
    Ok(greater(start, greater(need, 1)))
}

// How many locals a method is given.
fn given_to(method: &IfaceMethod) -> u8
    requires { given_to method.now < 256 }
    ensures { result ≡ given_to method.now }
{
    let count = method.params.len();
    match method.kind {
        MethodKind::Static => count as u8,
        MethodKind::PrivateStatic => count as u8,
        MethodKind::Abstract => (1 + count) as u8,
        MethodKind::Body => (1 + count) as u8,
    }
}
