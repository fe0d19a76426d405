ghost use Rattle.std.specs.Prelude.{◌≡◌, ◌+◌, ◌^◌, ◌<◌, length, IfSome, slice_get};
ghost use Rattle.jvm_table.specs.declared.opcode.Form.TheVariants.{InterfaceCall};
ghost use Rattle.jvm_table.specs.Decode.{two_at, four_at, signed, target_of, sized, array_instr, row_of, row_at};

use crate::{ConstantUse, Form, Instr, Jump, form_of};

/// An instruction, and the place behind it.
#[derive(Clone, Copy, Debug, PartialEq, Eq)]
pub struct Row {
    pub instr: Instr,
    pub next: u32,
}

/// The instruction at a place of a method's code, or `None` where there is none whole, or none that the table has.
pub fn fetch_row(code: &[u8], place: u32) -> Option<Row>
    requires { length code.now < 2 ^ 32 }
    ensures { result ≡ row_at code.now place }
{
    let opcode = byte_in(code, place)?;
    read_operands(code, place, form_of(opcode)?)
}

fn read_operands(code: &[u8], place: u32, form: Form) -> Option<Row>
    requires short { length code.now < 2 ^ 32 }
    requires within { place < length code.now }
    ensures { result ≡ row_of code.now place form }
{
    match form {
        Form::Plain(instr) => with_size(place, 1, instr),
        Form::PushByte => {
            let b = byte_in(code, place + 1)?;
            with_size(place, 2, Instr::PushInt(signed_byte(b)))
        }
        Form::PushShort => {
            let n = two_in(code, place + 1)?;
            with_size(place, 3, Instr::PushInt(signed_short(n)))
        }
        Form::ShortConstant => {
            let index = byte_in(code, place + 1)?;
            with_size(
                place,
                2,
                Instr::OnConstant(ConstantUse::PushConstant, u16::from(index)),
            )
        }
        Form::Indexed(constant_use) => {
            let index = two_in(code, place + 1)?;
            with_size(place, 3, Instr::OnConstant(constant_use, index))
        }
        Form::LoadLocal(kind) => {
            let index = byte_in(code, place + 1)?;
            with_size(place, 2, Instr::Load(kind, u16::from(index)))
        }
        Form::StoreLocal(kind) => {
            let index = byte_in(code, place + 1)?;
            with_size(place, 2, Instr::Store(kind, u16::from(index)))
        }
        Form::IncreaseLocal => {
            let index = byte_in(code, place + 1)?;
            let by = byte_in(code, place + 2)?;
            with_size(place, 3, Instr::Increase(u16::from(index), signed_byte(by)))
        }
        Form::ShortJump(jump) => {
            let by = two_in(code, place + 1)?;
            let to = short_target(place, by)?;
            with_size(place, 3, Instr::JumpTo(jump, to))
        }
        Form::WideJump => {
            let by = four_in(code, place + 1)?;
            let to = wide_target(place, by)?;
            with_size(place, 5, Instr::JumpTo(Jump::Always, to))
        }
        Form::InterfaceCall => read_interface_call(code, place),
        Form::MakeArray => {
            let code_of_type = byte_in(code, place + 1)?;
            with_size(place, 2, array_of(code_of_type)?)
        }
    }
}

fn read_interface_call(code: &[u8], place: u32) -> Option<Row>
    requires short { length code.now < 2 ^ 32 }
    requires within { place < length code.now }
    ensures { result ≡ row_of code.now place InterfaceCall }
{
    let index = two_in(code, place + 1)?;
    let count = byte_in(code, place + 3)?;
    let last = byte_in(code, place + 4)?;
    if last == 0 {
        with_size(place, 5, Instr::InvokeInterface(index, count))
    } else {
        None
    }
}

fn array_of(code_of_type: u8) -> Option<Instr>
    ensures { result ≡ array_instr code_of_type }
{
    if code_of_type == 4 {
        Some(Instr::MakeTruths)
    } else if code_of_type == 10 {
        Some(Instr::MakeNumbers)
    } else {
        None
    }
}

fn with_size(place: u32, bytes: u32, instr: Instr) -> Option<Row>
    requires { place + bytes < 2 ^ 32 }
    ensures { result ≡ sized place bytes instr }
{
    Some(Row {
        instr,
        next: place + bytes,
    })
}

fn signed_byte(b: u8) -> i32
    ensures { result ≡ signed 256 b }
{
    if b < 128 {
        i32::from(b)
    } else {
        i32::from(b) - 256
    }
}

fn signed_short(n: u16) -> i32
    ensures { result ≡ signed 65536 n }
{
    if n < 32768 {
        i32::from(n)
    } else {
        i32::from(n) - 65536
    }
}

fn short_target(place: u32, by: u16) -> Option<u32>
    ensures { result ≡ target_of (2 ^ 16) place by }
{
    let by = u32::from(by);
    if by < 32768 {
        place.checked_add(by)
    } else {
        place.checked_sub(65536 - by)
    }
}

fn wide_target(place: u32, by: u32) -> Option<u32>
    ensures { result ≡ target_of (2 ^ 32) place by }
{
    if by < 0x8000_0000 {
        place.checked_add(by)
    } else {
        place.checked_sub(0xffff_ffff - by)?.checked_sub(1)
    }
}

fn byte_in(code: &[u8], place: u32) -> Option<u8>
    ensures value { result ≡ slice_get code.now place }
    ensures within { IfSome result (λ _. place < length code.now) }
{
    code.get(place as usize).copied()
}

fn two_in(code: &[u8], place: u32) -> Option<u16>
    requires { length code.now < 2 ^ 32 }
    ensures value { result ≡ two_at code.now place }
    ensures within { IfSome result (λ _. place + 1 < length code.now) }
{
    let high = byte_in(code, place)?;
    let low = byte_in(code, place + 1)?;
    Some(256 * u16::from(high) + u16::from(low))
}

fn four_in(code: &[u8], place: u32) -> Option<u32>
    requires { length code.now < 2 ^ 32 }
    ensures value { result ≡ four_at code.now place }
    ensures within { IfSome result (λ _. place + 3 < length code.now) }
{
    let high = two_in(code, place)?;
    let low = two_in(code, place + 2)?;
    Some(65536 * u32::from(high) + u32::from(low))
}
