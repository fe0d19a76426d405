// The numbers of the opcodes (JVM specification, second edition, chapter 6).

pub(crate) const ICONST_0: u8 = 0x03;

pub(crate) const ICONST_1: u8 = 0x04;

pub(crate) const ICONST_3: u8 = 0x06;

pub(crate) const LDC: u8 = 0x12;

pub(crate) const ILOAD_0: u8 = 0x1a;

pub(crate) const ILOAD_1: u8 = 0x1b;

pub(crate) const ALOAD_0: u8 = 0x2a;

pub(crate) const ALOAD_2: u8 = 0x2c;

pub(crate) const ISTORE: u8 = 0x36;

pub(crate) const ASTORE: u8 = 0x3a;

pub(crate) const DUP: u8 = 0x59;

pub(crate) const IADD: u8 = 0x60;

pub(crate) const IXOR: u8 = 0x82;

pub(crate) const IINC: u8 = 0x84;

pub(crate) const IF_ICMPLT: u8 = 0xa1;

pub(crate) const GOTO: u8 = 0xa7;

pub(crate) const IRETURN: u8 = 0xac;

pub(crate) const RETURN: u8 = 0xb1;

pub(crate) const GETFIELD: u8 = 0xb4;

pub(crate) const PUTFIELD: u8 = 0xb5;

pub(crate) const INVOKEVIRTUAL: u8 = 0xb6;

pub(crate) const INVOKESPECIAL: u8 = 0xb7;

pub(crate) const INVOKESTATIC: u8 = 0xb8;

pub(crate) const NEW: u8 = 0xbb;

pub(crate) const INSTANCEOF: u8 = 0xc1;
