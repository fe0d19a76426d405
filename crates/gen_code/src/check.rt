ghost use Rattle.std.specs.Prelude.{◌≡◌, is_some};
ghost use Rattle.std.specs.List.{list_all};
ghost use Rattle.code_asm.specs.Encoding.{bytes_of, int_bytes, long_bytes, local_bytes, with_local, load_bytes, store_bytes, increase_bytes, return_bytes};
ghost use Rattle.code_asm.specs.Lines.{has_opcode, is_labelled, line_marks, is_marked_in, line_lands};
ghost use Rattle.gen_code.specs.Compiled.{is_new_in, marks_once, are_written};

use code_asm::Line;
use jp_store::Kind;
use jvm_table::Instr;

/// Whether lines can be laid out: there is an opcode for each, and their labels are numbers below one, each marked once
/// at most, and once if a jump leads to it.
pub(crate) fn are_written(lines: &[Line], labels: usize) -> bool
    ensures { result ≡ are_written labels lines.now }
{
    have_opcodes(lines) && are_labelled(lines, labels) && marks_once(lines) && all_land(lines)
}

fn have_opcodes(lines: &[Line]) -> bool
    ensures { result ≡ list_all has_opcode lines.now }
{
    lines.iter().all(has_opcode)
}

// Whether the labels of lines are numbers below one.
fn are_labelled(lines: &[Line], labels: usize) -> bool
    ensures { result ≡ list_all (is_labelled labels) lines.now }
{
    lines.iter().all(|line| is_labelled(labels, line))
}

// Whether each jump leads to a label that is marked.
fn all_land(lines: &[Line]) -> bool
    ensures { result ≡ list_all (line_lands lines.now) lines.now }
{
    lines.iter().all(|line| line_lands(lines, line))
}

fn has_opcode(line: &Line) -> bool
    ensures { result ≡ has_opcode line.now }
{
    match line {
        Line::Plain(instr) => has_bytes(*instr),
        Line::Uses(_, _) => true,
        Line::CallsInterface(_, places) => *places < 256,
        Line::Branch(_, _) => true,
        Line::Mark(_) => true,
    }
}

// Whether there is an opcode for an instruction that names nothing.
fn has_bytes(instr: Instr) -> bool
    ensures { result ≡ is_some (bytes_of instr) }
{
    match instr {
        Instr::PushInt(n) => has_int(n),
        Instr::PushLong(n) => has_long(n),
        Instr::Load(kind, slot) => has_load(kind, slot),
        Instr::Store(kind, slot) => has_store(kind, slot),
        Instr::Increase(slot, by) => has_increase(slot, by),
        Instr::ReturnValue(kind) => has_return(kind),
        Instr::JumpTo(_, _) | Instr::OnConstant(_, _) | Instr::InvokeInterface(_, _) => false,
        Instr::PushNull
        | Instr::LoadElement(_)
        | Instr::StoreElement(_)
        | Instr::MakeNumbers
        | Instr::MakeTruths
        | Instr::ArrayLength
        | Instr::PopTop
        | Instr::Dup
        | Instr::DupBelow
        | Instr::DupTwo
        | Instr::Binary(_)
        | Instr::Negate
        | Instr::Widen
        | Instr::AddLongs
        | Instr::MultiplyLongs
        | Instr::CompareLongs
        | Instr::ReturnVoid => true,
    }
}

fn has_int(n: i32) -> bool
    ensures { result ≡ is_some (int_bytes n) }
{
    match n {
        -1..=5 => true,
        -128..=127 => true,
        -32768..=32767 => true,
        _ => false,
    }
}

fn has_long(n: i64) -> bool
    ensures { result ≡ is_some (long_bytes n) }
{
    match n {
        0 => true,
        1 => true,
        _ => false,
    }
}

// There are opcodes for the first 256 locals.
fn has_load(kind: Kind, slot: u16) -> bool
    ensures { result ≡ is_some (load_bytes kind slot) }
{
    match kind {
        Kind::Number => has_local(0x1a, 0x15, slot),
        Kind::LongNumber => false,
        Kind::Reference => has_local(0x2a, 0x19, slot),
    }
}

fn has_local(first: u8, opcode: u8, slot: u16) -> bool
    ensures { result ≡ is_some (local_bytes first opcode slot) }
{
    slot < 4 || with_local(opcode, slot)
}

fn with_local(opcode: u8, slot: u16) -> bool
    ensures { result ≡ is_some (with_local opcode slot) }
{
    slot < 256
}

fn has_store(kind: Kind, slot: u16) -> bool
    ensures { result ≡ is_some (store_bytes kind slot) }
{
    match kind {
        Kind::Number => with_local(0x36, slot),
        Kind::LongNumber => false,
        Kind::Reference => with_local(0x3a, slot),
    }
}

fn has_increase(slot: u16, by: i32) -> bool
    ensures { result ≡ is_some (increase_bytes slot by) }
{
    slot < 256 && -128 <= by && by < 128
}

fn has_return(kind: Kind) -> bool
    ensures { result ≡ is_some (return_bytes kind) }
{
    match kind {
        Kind::Number => true,
        Kind::LongNumber => false,
        Kind::Reference => true,
    }
}

fn is_labelled(labels: usize, line: &Line) -> bool
    ensures { result ≡ is_labelled labels line.now }
{
    match line {
        Line::Branch(_, label) | Line::Mark(label) => *label < labels,
        Line::Plain(_) | Line::Uses(_, _) | Line::CallsInterface(_, _) => true,
    }
}

// Whether a line is a label's mark.
fn line_marks(label: usize, line: &Line) -> bool
    ensures { result ≡ line_marks label line.now }
{
    match line {
        Line::Mark(marked) => label == *marked,
        Line::Plain(_) | Line::Uses(_, _) | Line::CallsInterface(_, _) | Line::Branch(_, _) => {
            false
        }
    }
}

fn is_marked_in(lines: &[Line], label: usize) -> bool
    ensures { result ≡ is_marked_in lines.now label }
{
    lines.iter().any(|line| line_marks(label, line))
}

// Whether a jump's label is marked among lines.
fn line_lands(lines: &[Line], line: &Line) -> bool
    ensures { result ≡ line_lands lines.now line.now }
{
    match line {
        Line::Branch(_, label) => is_marked_in(lines, *label),
        Line::Plain(_) | Line::Uses(_, _) | Line::CallsInterface(_, _) | Line::Mark(_) => true,
    }
}

// Whether each label is marked once at most.
fn marks_once(lines: &[Line]) -> bool
    ensures { result ≡ marks_once lines.now }
{
    for (at, line) in lines.iter().enumerate() {
        if !is_new_in(&lines[at + 1..], line) {
            return false;
        }
    }
    true
}

// Whether a line marks nothing that lines mark.
fn is_new_in(lines: &[Line], line: &Line) -> bool
    ensures { result ≡ is_new_in lines.now line.now }
{
    match line {
        Line::Mark(label) => !is_marked_in(lines, *label),
        Line::Plain(_) | Line::Uses(_, _) | Line::CallsInterface(_, _) | Line::Branch(_, _) => true,
    }
}
