ghost use Rattle.std.specs.Prelude.{◌≡◌, ◌≤◌, IfOk};
ghost use Rattle.jp_meaning.specs.declared.unit.TypedPart.TheVariants.{Constructor};
ghost use Rattle.gen_body.specs.Correct.{slots_of};

use super::*;
use code_asm::Pool;
use iface_codec::Iface;
use jp_ast::Place;
use jp_meaning::{TypedExpr, TypedKind, TypedMember, TypedPart, TypedStmt, TypedStmtKind};
use jp_pred::{Hier, Name, Ty};
use sqlite_items::{Boxed, Items};
use std::alloc::{AllocError, Global};
use std::test::*;

// The class A with a constructor without parameters.
fn head(alloc: Global) -> Result<Iface, AllocError>
    ensures { IfOk result (λ head. slots_of head (Constructor 0) ≤ 2) }
{
    let mut constructors = Items::new(alloc);
    constructors.push(Items::new(alloc))?;
    Ok(Iface {
        name: Name::from_bytes(alloc, b"A")?,
        is_abstract: false,
        is_final: false,
        is_interface: false,
        superclass: Some(Name::from_bytes(alloc, b"Object")?),
        interfaces: Items::new(alloc),
        fields: Items::new(alloc),
        constructors,
        methods: Items::new(alloc),
    })
}

fn int(kind: TypedKind) -> TypedExpr {
    TypedExpr {
        place: Place { line: 1, col: 1 },
        ty: Ty::Int,
        kind,
    }
}

fn number(value: u32) -> TypedExpr {
    int(TypedKind::Number { value, hex: false })
}

fn statement(kind: TypedStmtKind) -> TypedStmt {
    TypedStmt {
        place: Place { line: 1, col: 1 },
        kind,
    }
}

// while (n < 3) n++;
fn count_up(alloc: Global) -> Result<TypedStmt, AllocError> {
    let test = int(TypedKind::Binary {
        sign: 10,
        left: Boxed::new(alloc, int(TypedKind::Local(1)))?,
        right: Boxed::new(alloc, number(3))?,
    });
    let body = statement(TypedStmtKind::Bump {
        left: int(TypedKind::Local(1)),
        up: true,
    });
    Ok(statement(TypedStmtKind::While {
        test,
        body: Boxed::new(alloc, body)?,
    }))
}

// A() { int n = 0; while (n < 3) n++; }
fn constructor(alloc: Global) -> Result<TypedMember, AllocError>
    ensures part { IfOk result (λ m. m.part ≡ Constructor 0) }
    ensures locals { IfOk result (λ m. m.locals ≡ 2) }
{
    let mut block = Items::new(alloc);
    block.push(statement(TypedStmtKind::Local {
        slot: 1,
        ty: Ty::Int,
        value: Some(number(0)),
    }))?;
    block.push(count_up(alloc)?)?;
    Ok(TypedMember {
        part: TypedPart::Constructor(0),
        locals: 2,
        guard: None,
        super_params: Items::new(alloc),
        super_args: Items::new(alloc),
        block,
    })
}

#[test]
fn a_constructor_counts_up(rt: HostRuntime) -> Result<(), Fail> {
    let alloc = rt.alloc();
    let hier = Hier {
        classes: Items::new(alloc),
    };
    let mut pool = Pool::new(alloc);
    let head = head(alloc)?;
    let member = constructor(alloc)?;
    let code = body_code(alloc, &mut pool, &hier, &head, &member)
        .ok()
        .ok_or("the member has code")?;
    let bytes = [
        0x2a, 0xb7, 0, 6, 0x03, 0x36, 1, 0x1b, 0x06, 0xa2, 0, 9, 0x84, 1, 1, 0xa7, 0xff, 0xf8, 0xb1,
    ];
    assert_eq!(rt; code.bytes.bytes(), bytes.as_slice());
    assert_eq!(rt; code.max_stack, 2);
    assert_eq!(rt; code.max_locals, 2);
    Ok(())
}
