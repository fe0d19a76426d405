use super::*;
use jp_store::{Kind, Value};
use std::test::*;

const fn row(instr: Instr, next: u32) -> Option<Row> {
    Some(Row { instr, next })
}

#[test]
fn operands(rt: HostRuntime) {
    assert_eq!(rt; fetch_row(&[0x10, 0x80], 0), row(Instr::PushInt(-128), 2));
    assert_eq!(rt;
        fetch_row(&[0x11, 0x7f, 0xff], 0),
        row(Instr::PushInt(32767), 3)
    );
    assert_eq!(rt;
        fetch_row(&[0x15, 0xff], 0),
        row(Instr::Load(Kind::Number, 255), 2)
    );
    assert_eq!(rt; fetch_row(&[0x11, 0x7f], 0), None);
    assert_eq!(rt; fetch_row(&[0xff], 0), None);
}

#[test]
fn jumps(rt: HostRuntime) {
    let back = row(Instr::JumpTo(Jump::Always, 1), 5);
    assert_eq!(rt; fetch_row(&[0, 0, 0xa7, 0xff, 0xff], 2), back);
    assert_eq!(rt; fetch_row(&[0xa7, 0xff, 0xff], 0), None);
}

#[test]
fn a_long_takes_two_places(rt: HostRuntime) -> Result<(), Fail> {
    let mut stack = Stack::new(rt.alloc(), 3).ok().ok_or("there is memory")?;
    assert_eq!(rt; stack.push(Value::Long(5)), true);
    assert_eq!(rt; stack.push(Value::Long(6)), false);
    assert_eq!(rt; stack.push(Value::Int(7)), true);
    assert_eq!(rt; stack.pop(), Some(Value::Int(7)));
    assert_eq!(rt; stack.pop(), Some(Value::Long(5)));
    assert_eq!(rt; stack.pop(), None);
    Ok(())
}

#[test]
fn variables(rt: HostRuntime) -> Result<(), Fail> {
    let mut locals = Locals::new(rt.alloc(), 1).ok().ok_or("there is memory")?;
    assert_eq!(rt; locals.get(0), None);
    assert_eq!(rt; locals.set(0, Value::Null), true);
    assert_eq!(rt; locals.get(0), Some(Value::Null));
    assert_eq!(rt; locals.set(1, Value::Null), false);
    Ok(())
}
