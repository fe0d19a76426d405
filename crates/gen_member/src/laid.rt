ghost use Rattle.std.specs.Prelude.{◌≡◌, ◌+◌, ◌<◌, ◌≤◌, length, IfOk, OnOk};
ghost use Rattle.gen_body.specs.Correct.{slots_of};
ghost use Rattle.gen_body.specs.Members.{member_code};
ghost use Rattle.code_asm.specs.Held.{Extends};
ghost use Rattle.code_asm.specs.Lines.{lines_of};
ghost use Rattle.code_asm.specs.Written.{with_lines};
ghost use Rattle.gen_member.specs.Laid.{CompilesMember, IsSized};

use crate::members::put_member;
use class_form::Code;
use code_asm::Pool;
use gen_code::{Body, BodyFault, lay_out};
use iface_codec::Iface;
use jp_meaning::TypedMember;
use jp_pred::Hier;
use std::alloc::Global;

/// The code of a member of a class, whose paths lead through classes of the hierarchy. It has the member's open traces. The
/// constants that it names are added to the pool; after a fault it may have got some of them. `Unfit` comes where the
/// member's lines can't be laid out, a fault of the assembler where they are too many or a jump too far, or memory is
/// wanting.
pub fn body_code(
    alloc: Global,
    pool: &mut Pool,
    hier: &Hier,
    head: &Iface,
    m: &TypedMember,
) -> Result<Code, BodyFault>
    requires { slots_of head.now m.now.part ≤ m.now.locals }
    ensures kept { Extends pool.old pool.new }
    ensures few { OnOk result (1 + length pool.old < 65536 → 1 + length pool.new < 65536) }
    ensures asked { OnOk result (pool.new ≡ with_lines pool.old (lines_of (member_code hier.now head.now m.now).items)) }
    ensures sized { IfOk result (IsSized head.now m.now) }
    ensures compiled { CompilesMember hier.now head.now m.now pool.old pool.new result }
{
    let mut code = Body {
        alloc,
        lines: Vec::new(alloc),
        labels: 2,
    };
    let need = put_member(&mut code, hier, head, m)?;
    lay_out(pool, &code, need, m.locals)
}
