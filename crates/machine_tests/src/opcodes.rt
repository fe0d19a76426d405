// The numbers of the opcodes (JVM specification, second edition, chapter 6).

pub(crate) const NOP: u8 = 0x00;

pub(crate) const ACONST_NULL: u8 = 0x01;

pub(crate) const ICONST_M1: u8 = 0x02;

pub(crate) const ICONST_0: u8 = 0x03;

pub(crate) const ICONST_1: u8 = 0x04;

pub(crate) const ICONST_2: u8 = 0x05;

pub(crate) const ICONST_3: u8 = 0x06;

pub(crate) const ICONST_4: u8 = 0x07;

pub(crate) const ICONST_5: u8 = 0x08;

pub(crate) const LCONST_0: u8 = 0x09;

pub(crate) const LCONST_1: u8 = 0x0a;

pub(crate) const BIPUSH: u8 = 0x10;

pub(crate) const SIPUSH: u8 = 0x11;

pub(crate) const LDC: u8 = 0x12;

pub(crate) const LDC_W: u8 = 0x13;

pub(crate) const LDC2_W: u8 = 0x14;

pub(crate) const ILOAD: u8 = 0x15;

pub(crate) const ALOAD: u8 = 0x19;

pub(crate) const ILOAD_0: u8 = 0x1a;

pub(crate) const ILOAD_1: u8 = 0x1b;

pub(crate) const ILOAD_2: u8 = 0x1c;

pub(crate) const ILOAD_3: u8 = 0x1d;

pub(crate) const ALOAD_0: u8 = 0x2a;

pub(crate) const ALOAD_1: u8 = 0x2b;

pub(crate) const ALOAD_2: u8 = 0x2c;

pub(crate) const ALOAD_3: u8 = 0x2d;

pub(crate) const IALOAD: u8 = 0x2e;

pub(crate) const AALOAD: u8 = 0x32;

pub(crate) const BALOAD: u8 = 0x33;

pub(crate) const ISTORE: u8 = 0x36;

pub(crate) const ASTORE: u8 = 0x3a;

pub(crate) const IASTORE: u8 = 0x4f;

pub(crate) const AASTORE: u8 = 0x53;

pub(crate) const BASTORE: u8 = 0x54;

pub(crate) const POP: u8 = 0x57;

pub(crate) const DUP: u8 = 0x59;

pub(crate) const DUP_X1: u8 = 0x5a;

pub(crate) const DUP2: u8 = 0x5c;

pub(crate) const IADD: u8 = 0x60;

pub(crate) const LADD: u8 = 0x61;

pub(crate) const ISUB: u8 = 0x64;

pub(crate) const IMUL: u8 = 0x68;

pub(crate) const LMUL: u8 = 0x69;

pub(crate) const IDIV: u8 = 0x6c;

pub(crate) const IREM: u8 = 0x70;

pub(crate) const INEG: u8 = 0x74;

pub(crate) const ISHL: u8 = 0x78;

pub(crate) const ISHR: u8 = 0x7a;

pub(crate) const IUSHR: u8 = 0x7c;

pub(crate) const IAND: u8 = 0x7e;

pub(crate) const IOR: u8 = 0x80;

pub(crate) const IXOR: u8 = 0x82;

pub(crate) const IINC: u8 = 0x84;

pub(crate) const I2L: u8 = 0x85;

pub(crate) const LCMP: u8 = 0x94;

pub(crate) const IFEQ: u8 = 0x99;

pub(crate) const IFNE: u8 = 0x9a;

pub(crate) const IFLT: u8 = 0x9b;

pub(crate) const IFGE: u8 = 0x9c;

pub(crate) const IFGT: u8 = 0x9d;

pub(crate) const IFLE: u8 = 0x9e;

pub(crate) const IF_ICMPEQ: u8 = 0x9f;

pub(crate) const IF_ICMPNE: u8 = 0xa0;

pub(crate) const IF_ICMPLT: u8 = 0xa1;

pub(crate) const IF_ICMPGE: u8 = 0xa2;

pub(crate) const IF_ICMPGT: u8 = 0xa3;

pub(crate) const IF_ICMPLE: u8 = 0xa4;

pub(crate) const IF_ACMPEQ: u8 = 0xa5;

pub(crate) const IF_ACMPNE: u8 = 0xa6;

pub(crate) const GOTO: u8 = 0xa7;

pub(crate) const IRETURN: u8 = 0xac;

pub(crate) const ARETURN: u8 = 0xb0;

pub(crate) const RETURN: u8 = 0xb1;

pub(crate) const GETSTATIC: u8 = 0xb2;

pub(crate) const PUTSTATIC: u8 = 0xb3;

pub(crate) const GETFIELD: u8 = 0xb4;

pub(crate) const PUTFIELD: u8 = 0xb5;

pub(crate) const INVOKEVIRTUAL: u8 = 0xb6;

pub(crate) const INVOKESPECIAL: u8 = 0xb7;

pub(crate) const INVOKESTATIC: u8 = 0xb8;

pub(crate) const INVOKEINTERFACE: u8 = 0xb9;

pub(crate) const NEW: u8 = 0xbb;

pub(crate) const NEWARRAY: u8 = 0xbc;

pub(crate) const ANEWARRAY: u8 = 0xbd;

pub(crate) const ARRAYLENGTH: u8 = 0xbe;

pub(crate) const CHECKCAST: u8 = 0xc0;

pub(crate) const INSTANCEOF: u8 = 0xc1;

pub(crate) const IFNULL: u8 = 0xc6;

pub(crate) const IFNONNULL: u8 = 0xc7;

pub(crate) const GOTO_W: u8 = 0xc8;
