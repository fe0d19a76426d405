ghost use Rattle.std.specs.Prelude.{◌≡◌, ℕ, ◌+◌, ◌<◌, true, false, ◌∷◌, List, length, slice_get, Some, is_some, IfOk, OnOk, OnErr};
ghost use Rattle.std.specs.List.{list_all};
ghost use Rattle.code_asm.specs.Held.{Extends, Answers};
ghost use Rattle.code_asm.specs.Encoding.{bytes_of, use_bytes, interface_bytes};
ghost use Rattle.code_asm.specs.Lines.{AreLabelled, is_labelled, has_opcode, line_marks};
ghost use Rattle.code_asm.specs.Pieces.{is_marked};
ghost use Rattle.code_asm.specs.Written.{hold_named};
ghost use Rattle.code_asm.specs.Assembled.{Assembles, AreNumbered, PutsBytes, PutsLine};
ghost use Rattle.code_asm.specs.declared.line.Line.TheVariants.{Plain, Uses, CallsInterface};

use crate::asm::{Asm, Label};
use crate::encode::{Encoded, encode, jump_opcode, use_opcode};
use crate::{AsmFault, Line, Named, Pool};
use class_form::Code;
use jvm_table::{ConstantUse, Instr};
use std::alloc::{AllocError, Global};

/// The code of lines whose labels are the numbers below `labels`, with the most places that it takes of the stack, and
/// its local variables. The constants that it names are added to the pool. `Full` comes before `TooLong` and
/// `FarJump`. After a fault the pool may have got some of the constants.
pub fn assemble(
    alloc: Global,
    pool: &mut Pool,
    lines: &[Line],
    labels: usize,
    max_stack: u16,
    max_locals: u16,
) -> Result<Code, AsmFault>
    requires opcodes { list_all has_opcode lines.now ≡ true }
    requires labelled { AreLabelled labels lines.now }
    ensures kept { Extends pool.old pool.new }
    ensures few { OnOk result (1 + length pool.old < 65536 → 1 + length pool.new < 65536) }
    ensures code { Assembles lines.now pool.old pool.new max_stack max_locals result }
{
    let mut asm = Asm::new(alloc);
    let marks = new_labels(alloc, &mut asm, labels)?;
    for line in lines {
        put_line(alloc, pool, &mut asm, marks.as_slice(), line)?;
    }
    asm.finish(alloc, max_stack, max_locals)
}

// So many labels of an empty `Asm`.
fn new_labels(alloc: Global, asm: &mut Asm, count: usize) -> Result<Vec<Label>, AllocError>
    requires { asm.old.labels ≡ 0 }
    ensures pieces { asm.new.pieces ≡ asm.old.pieces }
    ensures count { OnOk result (asm.new.labels ≡ count) }
    ensures len { IfOk result (λ labels. length labels.items ≡ count) }
    ensures numbered { IfOk result (λ labels. AreNumbered labels.items) }
{
    let mut labels = Vec::new(alloc);
    for _i in 0..count {
        labels.push(asm.label()?)?;
    }
    Ok(labels)
}

fn put_line(
    alloc: Global,
    pool: &mut Pool,
    asm: &mut Asm,
    labels: &[Label],
    line: &Line,
) -> Result<(), AsmFault>
    requires opcode { has_opcode line.now ≡ true }
    requires numbered { AreNumbered labels.now }
    requires all { length labels.now ≡ asm.old.labels }
    requires known { is_labelled asm.old.labels line.now ≡ true }
    requires first { (label : ℕ) → line_marks label line.now ≡ true → is_marked asm.old.pieces label ≡ false }
    ensures kept { Extends pool.old pool.new }
    ensures put { PutsLine line.now pool.old pool.new asm.old asm.new result }
{
    match line {
        Line::Plain(instr) => Ok(put_plain(asm, *instr)?),
        Line::Uses(constant_use, named) => {
            let index = index_of(alloc, pool, named)?;
            Ok(put_use(asm, *constant_use, index)?)
        }
        Line::CallsInterface(member, count) => {
            let index = pool.interface_method(
                alloc,
                member.class.bytes(),
                member.name.bytes(),
                member.descriptor.bytes(),
            )?;
            Ok(put_interface_call(asm, index, *count as u8)?)
        }
        Line::Branch(jump, label) => Ok(asm.jump(jump_opcode(*jump), labels[*label])?),
        Line::Mark(label) => {
            asm.mark(labels[*label]);
            Ok(())
        }
    }
}

// The index of what a line names.
fn index_of(alloc: Global, pool: &mut Pool, named: &Named) -> Result<u16, AsmFault>
    ensures kept { Extends pool.old pool.new }
    ensures held { Answers (hold_named pool.old named.now) pool.old pool.new result }
{
    match named {
        Named::Int(n) => pool.integer(*n),
        Named::Text(bytes) => pool.text(alloc, bytes.bytes()),
        Named::Class(name) => pool.class(alloc, name.bytes()),
        Named::Field(member) => pool.field(
            alloc,
            member.class.bytes(),
            member.name.bytes(),
            member.descriptor.bytes(),
        ),
        Named::Method(member) => pool.method(
            alloc,
            member.class.bytes(),
            member.name.bytes(),
            member.descriptor.bytes(),
        ),
    }
}

fn put_plain(asm: &mut Asm, instr: Instr) -> Result<(), AllocError>
    requires { is_some (bytes_of instr) ≡ true }
    ensures { OnOk result (PutsBytes (bytes_of instr) asm.old asm.new) }
{
    match encode(instr).unwrap() {
        Encoded::Bare(opcode) => asm.op(opcode, &[]),
        Encoded::WithOne(opcode, a) => asm.op(opcode, &[a]),
        Encoded::WithTwo(opcode, a, b) => asm.op(opcode, &[a, b]),
    }
}

// `ldc` has an index of one byte, and all others have two.
#[tactic(auto, unfolding(class_form::specs::Layout::u2))]
fn put_use(asm: &mut Asm, constant_use: ConstantUse, index: u16) -> Result<(), AllocError>
    ensures put { OnOk result (PutsBytes (Some (use_bytes constant_use index)) asm.old asm.new) }
    ensures fits { index < 65536 }
{
    match constant_use {
        ConstantUse::PushConstant if index < 256 => asm.op(0x12, &[index as u8]),
        _ => asm.op(use_opcode(constant_use), &index.to_be_bytes()),
    }
}

#[tactic(auto, unfolding(class_form::specs::Layout::u2))]
fn put_interface_call(asm: &mut Asm, index: u16, places: u8) -> Result<(), AllocError>
    ensures put { OnOk result (PutsBytes (Some (interface_bytes index places)) asm.old asm.new) }
    ensures fits { index < 65536 }
{
    let [high, low] = index.to_be_bytes();
    asm.op(0xb9, &[high, low, places, 0])
}
