ghost use Rattle.std.specs.Prelude.{◌≡◌, ◌<◌, ◌^◌, List, length, IfOk, IfSome, MatchOption, Some, slice_get, option_and_then};
ghost use Rattle.std.specs.Option.{option_map};
ghost use Rattle.class_form.specs.declared.constant.Const.TheVariants.{Integer};
ghost use Rattle.class_form.specs.declared.member.MemberInfo.{MemberInfo as Method};
ghost use Rattle.jvm_table.specs.declared.frame.Frame.{Frame};
ghost use Rattle.jvm_load.specs.Loadable.{HasShortCode};
ghost use Rattle.jvm_quick.specs.Rows.{row_in, done_by, DoesAsAt, DoAsCode, DoAs};

use class_form::{ClassFile, Const, MemberInfo};
use jvm_table::{ConstantUse, Instr, Row, fetch_row};
use std::alloc::{AllocError, Global};
use std::marker::Model;

/// The instructions of a method, each at its place, which contracts see as their list. An int constant that an instruction
/// names stands in it.
#[derive(Drop)]
pub struct Rows {
    rows: Vec<Option<Row>>,
}

impl Model for Rows {
    ghost use Rattle.std.specs.Prelude.{List, Option};
    ghost use Rattle.jvm_table.specs.declared.decode.Row.{Row as Decoded};

    ghost Value = { List (Option Decoded) };

    ghost view = { λ r. r.rows.items };
}

impl Rows {
    /// The instruction at a place, if there is one.
    pub fn at(&self, place: u32) -> Option<&Row>
        ensures { option_map (λ row. row.now) result ≡ row_in self.now place }
    {
        self.rows.get(place as usize)?.as_ref()
    }
}

// The int that the constant at an index is, if it is one.
fn int_at(file: &ClassFile, index: u16) -> Option<i32>
    ensures { IfSome result (λ n. slice_get file.now.constants index ≡ Some (Integer n)) }
{
    match file.constants.get(index as usize)? {
        Const::Integer(n) => Some(*n),
        _ => None,
    }
}

// An instruction with the int in it that it pushes.
fn resolved(file: &ClassFile, row: Row) -> Row
    ensures { (method : Method) (f : Frame) → done_by file.now method (Some result) f ≡ done_by file.now method (Some row) f }
{
    match row.instr {
        Instr::OnConstant(constant_use, index) => match constant_use {
            ConstantUse::PushConstant => match int_at(file, index) {
                Some(n) => Row {
                    instr: Instr::PushInt(n),
                    next: row.next,
                },
                None => row,
            },
            _ => row,
        },
        _ => row,
    }
}

fn row_for(file: &ClassFile, code: &[u8], place: u32) -> Option<Row>
    requires { length code.now < 2 ^ 32 }
    ensures { DoesAsAt file.now code.now place result }
{
    let row = fetch_row(code, place)?;
    Some(resolved(file, row))
}

fn code_rows(alloc: Global, file: &ClassFile, code: &[u8]) -> Result<Vec<Option<Row>>, AllocError>
    requires { length code.now < 2 ^ 32 }
    ensures { IfOk result (λ rows. DoAsCode file.now code.now rows.items) }
{
    let mut rows = Vec::new(alloc);
    for place in 0..code.len() {
        rows.push(row_for(file, code, place as u32))?;
    }
    Ok(rows)
}

// The rows of a file's method. The error is want of memory.
pub(crate) fn method_rows(
    alloc: Global,
    file: &ClassFile,
    method: &MemberInfo,
) -> Result<Rows, AllocError>
    requires { HasShortCode method.now }
    ensures { IfOk result (DoAs file.now method.now) }
{
    match &method.code {
        Some(code) => Ok(Rows {
            rows: code_rows(alloc, file, code.bytes.bytes())?,
        }),
        None => Ok(Rows {
            rows: Vec::new(alloc),
        }),
    }
}
