use crate::classes::*;
use crate::opcodes::*;
use std::alloc::Global;
use std::process::Abort;
use std::test::Fail;

// Each code ends so, and has written that.
fn check(rt: &impl Abort, alloc: Global, table: &[(&[u8], &str, &[u8])]) -> Result<(), Fail> {
    for (code, end, written) in table {
        let (found, taken) = outcome(alloc, code)?;
        assert_eq!(rt; found, *end, "{code:?}");
        assert_eq!(rt; taken.as_slice(), *written, "{code:?}");
    }
    Ok(())
}

// Each code leaves a number on the stack, which is printed.
fn check_numbers(rt: &impl Abort, alloc: Global, table: &[(&[u8], &[u8])]) -> Result<(), Fail> {
    for (code, printed) in table {
        let mut whole = Vec::from_slice(alloc, code)?;
        whole.extend_from_slice(&[INVOKESTATIC, 0, PRINT, RETURN])?;
        let (found, taken) = outcome(alloc, whole.as_slice())?;
        assert_eq!(rt; found, "done", "{code:?}");
        assert_eq!(rt; taken.as_slice(), *printed, "{code:?}");
    }
    Ok(())
}

// Each code ends so before it writes anything.
fn check_ends(rt: &impl Abort, alloc: Global, table: &[(&[u8], &str)]) -> Result<(), Fail> {
    for (code, end) in table {
        let (found, taken) = outcome(alloc, code)?;
        assert_eq!(rt; found, *end, "{code:?}");
        assert_eq!(rt; taken.len(), 0, "{code:?}");
    }
    Ok(())
}

#[test]
fn constants_are_pushed(rt: HostRuntime) -> Result<(), Fail> {
    check_numbers(
        &rt,
        rt.alloc(),
        &[
            (&[ICONST_M1], b"-1"),
            (&[ICONST_0], b"0"),
            (&[ICONST_1], b"1"),
            (&[ICONST_2], b"2"),
            (&[ICONST_3], b"3"),
            (&[ICONST_4], b"4"),
            (&[ICONST_5], b"5"),
            (&[BIPUSH, 0x80], b"-128"),
            (&[BIPUSH, 0x7f], b"127"),
            (&[SIPUSH, 0x80, 0], b"-32768"),
            (&[SIPUSH, 0x7f, 0xff], b"32767"),
            (&[LDC, SEVEN], b"7"),
            (&[LDC_W, 0, LEAST], b"-2147483648"),
            (&[LCONST_0, LCONST_1, LCMP], b"-1"),
            (&[LDC2_W, 0, LONG, LCONST_1, LCMP], b"1"),
            (&[ICONST_5, ACONST_NULL, POP], b"5"),
        ],
    )
}

#[test]
fn numbers_are_computed_with(rt: HostRuntime) -> Result<(), Fail> {
    check_numbers(
        &rt,
        rt.alloc(),
        &[
            (&[ICONST_5, ICONST_3, IADD], b"8"),
            (&[LDC, LEAST, ICONST_M1, IADD], b"2147483647"),
            (&[ICONST_3, ICONST_5, ISUB], b"-2"),
            (&[LDC, LEAST, ICONST_1, ISUB], b"2147483647"),
            (&[ICONST_3, ICONST_5, IMUL], b"15"),
            (&[LDC, LEAST, ICONST_2, IMUL], b"0"),
            (&[BIPUSH, 0xf9, ICONST_2, IDIV], b"-3"),
            (&[LDC, LEAST, ICONST_M1, IDIV], b"-2147483648"),
            (&[BIPUSH, 0xf9, ICONST_2, IREM], b"-1"),
            (&[BIPUSH, 7, BIPUSH, 0xfe, IREM], b"1"),
            (&[LDC, LEAST, ICONST_M1, IREM], b"0"),
            (&[LDC, SEVEN, INEG], b"-7"),
            (&[LDC, LEAST, INEG], b"-2147483648"),
            (&[BIPUSH, 6, BIPUSH, 3, IAND], b"2"),
            (&[BIPUSH, 6, BIPUSH, 3, IOR], b"7"),
            (&[BIPUSH, 6, BIPUSH, 3, IXOR], b"5"),
        ],
    )
}

#[test]
fn numbers_are_shifted_and_compared(rt: HostRuntime) -> Result<(), Fail> {
    check_numbers(
        &rt,
        rt.alloc(),
        &[
            (&[ICONST_1, BIPUSH, 31, ISHL], b"-2147483648"),
            (&[ICONST_3, BIPUSH, 32, ISHL], b"3"),
            (&[ICONST_1, ICONST_M1, ISHL], b"-2147483648"),
            (&[BIPUSH, 0xf8, ICONST_1, ISHR], b"-4"),
            (&[LDC, LEAST, ICONST_M1, ISHR], b"-1"),
            (&[ICONST_M1, ICONST_1, IUSHR], b"2147483647"),
            (&[ICONST_M1, BIPUSH, 33, IUSHR], b"2147483647"),
            (
                &[ICONST_5, I2L, LCONST_1, LADD, LDC2_W, 0, LONG, LCMP],
                b"-1",
            ),
            (
                &[LDC, LEAST, I2L, LDC, LEAST, I2L, LMUL, LCONST_0, LCMP],
                b"1",
            ),
            (&[LCONST_1, LCONST_1, LADD, ICONST_2, I2L, LCMP], b"0"),
        ],
    )
}

#[test]
fn locals_and_the_stack(rt: HostRuntime) -> Result<(), Fail> {
    check_numbers(
        &rt,
        rt.alloc(),
        &[
            (&[ICONST_5, ISTORE, 0, ILOAD_0], b"5"),
            (&[ICONST_5, ISTORE, 1, ILOAD_1], b"5"),
            (&[ICONST_5, ISTORE, 2, ILOAD_2], b"5"),
            (&[ICONST_5, ISTORE, 3, ILOAD_3], b"5"),
            (&[ICONST_5, ISTORE, 3, ILOAD, 3], b"5"),
            (
                &[LDC, LEAST, ISTORE, 0, IINC, 0, 0xff, ILOAD_0],
                b"2147483647",
            ),
            (&[ICONST_5, ICONST_3, POP], b"5"),
            (&[ICONST_5, DUP, IMUL], b"25"),
            (&[ICONST_5, ICONST_3, DUP_X1, ISUB, ISUB], b"1"),
            (&[ICONST_5, ICONST_3, DUP2, ISUB, IMUL, ISUB], b"-1"),
            (
                &[
                    ACONST_NULL,
                    ASTORE,
                    0,
                    ALOAD_0,
                    ACONST_NULL,
                    IF_ACMPEQ,
                    0,
                    5,
                    ICONST_1,
                    RETURN,
                    ICONST_2,
                ],
                b"2",
            ),
        ],
    )
}

#[test]
fn references_are_kept_in_locals(rt: HostRuntime) -> Result<(), Fail> {
    check_numbers(
        &rt,
        rt.alloc(),
        &[
            (
                &[ICONST_3, NEWARRAY, 10, ASTORE, 1, ALOAD_1, ARRAYLENGTH],
                b"3",
            ),
            (
                &[ICONST_3, NEWARRAY, 10, ASTORE, 2, ALOAD_2, ARRAYLENGTH],
                b"3",
            ),
            (
                &[ICONST_3, NEWARRAY, 10, ASTORE, 3, ALOAD_3, ARRAYLENGTH],
                b"3",
            ),
            (
                &[ICONST_3, NEWARRAY, 4, ASTORE, 3, ALOAD, 3, ARRAYLENGTH],
                b"3",
            ),
            (
                &[
                    ICONST_2,
                    ANEWARRAY,
                    0,
                    MAIN_CLASS,
                    DUP,
                    ARRAYLENGTH,
                    ISTORE,
                    0,
                    POP,
                    ILOAD_0,
                ],
                b"2",
            ),
        ],
    )
}

// Where the jump is taken 2 is printed, and else 1.
fn check_jumps(rt: &impl Abort, alloc: Global, table: &[(&[u8], u8, bool)]) -> Result<(), Fail> {
    for (operands, opcode, is_taken) in table {
        let mut code = Vec::from_slice(alloc, operands)?;
        code.extend_from_slice(&[*opcode, 0, 8, ICONST_1, INVOKESTATIC, 0, PRINT, RETURN])?;
        code.extend_from_slice(&[ICONST_2, INVOKESTATIC, 0, PRINT, RETURN])?;
        let (found, taken) = outcome(alloc, code.as_slice())?;
        let printed: &[u8] = if *is_taken { b"2" } else { b"1" };
        assert_eq!(rt; found, "done", "{opcode}");
        assert_eq!(rt; taken.as_slice(), printed, "{opcode}");
    }
    Ok(())
}

#[test]
fn jumps_against_zero(rt: HostRuntime) -> Result<(), Fail> {
    check_jumps(
        &rt,
        rt.alloc(),
        &[
            (&[ICONST_0], IFEQ, true),
            (&[ICONST_1], IFEQ, false),
            (&[ICONST_1], IFNE, true),
            (&[ICONST_0], IFNE, false),
            (&[ICONST_M1], IFLT, true),
            (&[ICONST_0], IFLT, false),
            (&[ICONST_0], IFGE, true),
            (&[ICONST_M1], IFGE, false),
            (&[ICONST_1], IFGT, true),
            (&[ICONST_0], IFGT, false),
            (&[ICONST_0], IFLE, true),
            (&[ICONST_1], IFLE, false),
            (&[], GOTO, true),
        ],
    )
}

#[test]
fn jumps_by_comparing(rt: HostRuntime) -> Result<(), Fail> {
    check_jumps(
        &rt,
        rt.alloc(),
        &[
            (&[ICONST_3, ICONST_3], IF_ICMPEQ, true),
            (&[ICONST_3, ICONST_4], IF_ICMPEQ, false),
            (&[ICONST_3, ICONST_4], IF_ICMPNE, true),
            (&[ICONST_3, ICONST_4], IF_ICMPLT, true),
            (&[ICONST_4, ICONST_3], IF_ICMPLT, false),
            (&[ICONST_3, ICONST_3], IF_ICMPGE, true),
            (&[ICONST_3, ICONST_4], IF_ICMPGE, false),
            (&[ICONST_4, ICONST_3], IF_ICMPGT, true),
            (&[ICONST_3, ICONST_3], IF_ICMPGT, false),
            (&[ICONST_3, ICONST_3], IF_ICMPLE, true),
            (&[ICONST_4, ICONST_3], IF_ICMPLE, false),
        ],
    )
}

#[test]
fn jumps_by_references(rt: HostRuntime) -> Result<(), Fail> {
    check_jumps(
        &rt,
        rt.alloc(),
        &[
            (&[ACONST_NULL, ACONST_NULL], IF_ACMPEQ, true),
            (&[NEW, 0, MAIN_CLASS, NEW, 0, MAIN_CLASS], IF_ACMPEQ, false),
            (&[NEW, 0, MAIN_CLASS, DUP], IF_ACMPNE, false),
            (&[NEW, 0, MAIN_CLASS, ACONST_NULL], IF_ACMPNE, true),
            (&[ACONST_NULL], IFNULL, true),
            (&[NEW, 0, MAIN_CLASS], IFNULL, false),
            (&[ACONST_NULL], IFNONNULL, false),
            (&[NEW, 0, MAIN_CLASS], IFNONNULL, true),
        ],
    )
}

#[test]
fn elements_are_stored_and_loaded(rt: HostRuntime) -> Result<(), Fail> {
    check_numbers(
        &rt,
        rt.alloc(),
        &[
            (
                &[
                    ICONST_2, NEWARRAY, 10, DUP, ICONST_1, BIPUSH, 9, IASTORE, ICONST_1, IALOAD,
                ],
                b"9",
            ),
            (&[ICONST_2, NEWARRAY, 10, ICONST_1, IALOAD], b"0"),
            (
                &[
                    ICONST_2, NEWARRAY, 4, DUP, ICONST_0, ICONST_1, BASTORE, ICONST_0, BALOAD,
                ],
                b"1",
            ),
            (
                &[
                    ICONST_1,
                    ANEWARRAY,
                    0,
                    MAIN_CLASS,
                    DUP,
                    ICONST_0,
                    NEW,
                    0,
                    SUB_CLASS,
                    AASTORE,
                    ICONST_0,
                    AALOAD,
                    INVOKEVIRTUAL,
                    0,
                    MAIN_ID,
                ],
                b"2",
            ),
            (
                &[
                    ICONST_1,
                    ANEWARRAY,
                    0,
                    FACE,
                    DUP,
                    ICONST_0,
                    ACONST_NULL,
                    AASTORE,
                    ARRAYLENGTH,
                ],
                b"1",
            ),
            (&[ICONST_0, NEWARRAY, 10, ARRAYLENGTH], b"0"),
            (
                &[
                    ICONST_1,
                    ANEWARRAY,
                    0,
                    OBJECT,
                    DUP,
                    ICONST_0,
                    ICONST_1,
                    NEWARRAY,
                    10,
                    AASTORE,
                    ARRAYLENGTH,
                ],
                b"1",
            ),
        ],
    )
}

#[test]
fn fields_and_objects(rt: HostRuntime) -> Result<(), Fail> {
    check_numbers(
        &rt,
        rt.alloc(),
        &[
            (&[GETSTATIC, 0, STATIC_FIELD], b"0"),
            (
                &[
                    LDC,
                    SEVEN,
                    PUTSTATIC,
                    0,
                    STATIC_FIELD,
                    GETSTATIC,
                    0,
                    STATIC_FIELD,
                ],
                b"7",
            ),
            (&[NEW, 0, MAIN_CLASS, GETFIELD, 0, FIELD], b"0"),
            (
                &[
                    NEW, 0, SUB_CLASS, DUP, LDC, SEVEN, PUTFIELD, 0, FIELD, GETFIELD, 0, FIELD,
                ],
                b"7",
            ),
            (
                &[
                    NEW,
                    0,
                    MAIN_CLASS,
                    DUP,
                    PUTSTATIC,
                    0,
                    STATIC_REFERENCE,
                    GETSTATIC,
                    0,
                    STATIC_REFERENCE,
                    IF_ACMPEQ,
                    0,
                    5,
                    ICONST_1,
                    RETURN,
                    ICONST_2,
                ],
                b"2",
            ),
            (&[NEW, 0, SUB_CLASS, INSTANCEOF, 0, MAIN_CLASS], b"1"),
            (&[NEW, 0, SUB_CLASS, INSTANCEOF, 0, FACE], b"1"),
            (&[NEW, 0, MAIN_CLASS, INSTANCEOF, 0, SUB_CLASS], b"0"),
            (&[ACONST_NULL, INSTANCEOF, 0, MAIN_CLASS], b"0"),
            (&[ICONST_1, NEWARRAY, 10, INSTANCEOF, 0, OBJECT], b"1"),
            (
                &[
                    NEW,
                    0,
                    SUB_CLASS,
                    CHECKCAST,
                    0,
                    FACE,
                    INVOKEINTERFACE,
                    0,
                    FACE_ID,
                    1,
                    0,
                ],
                b"2",
            ),
            (
                &[
                    ACONST_NULL,
                    CHECKCAST,
                    0,
                    SUB_CLASS,
                    INSTANCEOF,
                    0,
                    SUB_CLASS,
                ],
                b"0",
            ),
        ],
    )
}

#[test]
fn methods_are_called(rt: HostRuntime) -> Result<(), Fail> {
    check_numbers(
        &rt,
        rt.alloc(),
        &[
            (&[ICONST_4, INVOKESTATIC, 0, TWICE], b"8"),
            (&[NEW, 0, MAIN_CLASS, INVOKEVIRTUAL, 0, MAIN_ID], b"1"),
            (&[NEW, 0, SUB_CLASS, INVOKEVIRTUAL, 0, MAIN_ID], b"2"),
            (&[NEW, 0, MAIN_CLASS, INVOKEVIRTUAL, 0, SUB_ID], b"1"),
            (
                &[NEW, 0, SUB_CLASS, INVOKEINTERFACE, 0, FACE_ID, 1, 0],
                b"2",
            ),
            (
                &[
                    NEW,
                    0,
                    MAIN_CLASS,
                    DUP,
                    INVOKESPECIAL,
                    0,
                    MAIN_INIT,
                    INVOKEVIRTUAL,
                    0,
                    MAIN_ID,
                ],
                b"1",
            ),
            (
                &[
                    NEW,
                    0,
                    OBJECT,
                    DUP,
                    INVOKESPECIAL,
                    0,
                    OBJECT_INIT,
                    INSTANCEOF,
                    0,
                    MAIN_CLASS,
                ],
                b"0",
            ),
            (
                &[
                    NEW,
                    0,
                    SUB_CLASS,
                    INVOKESTATIC,
                    0,
                    SAME,
                    INVOKEVIRTUAL,
                    0,
                    MAIN_ID,
                ],
                b"2",
            ),
            (&[LDC2_W, 0, LONG, LDC, SEVEN, INVOKESTATIC, 0, WIDE], b"7"),
            (&[INVOKESTATIC, 0, READ], b"65"),
            (&[INVOKESTATIC, 0, READ, INVOKESTATIC, 0, READ, ISUB], b"66"),
        ],
    )
}

#[test]
fn what_is_written(rt: HostRuntime) -> Result<(), Fail> {
    check(
        &rt,
        rt.alloc(),
        &[
            (&[RETURN], "done", b""),
            (&[LDC, TEXT, INVOKESTATIC, 0, SHOW, RETURN], "done", b"hi"),
            (
                &[
                    LDC,
                    TEXT,
                    DUP,
                    POP,
                    INVOKESTATIC,
                    0,
                    SHOW,
                    LDC,
                    SEVEN,
                    INVOKESTATIC,
                    0,
                    PRINT,
                    RETURN,
                ],
                "done",
                b"hi7",
            ),
            (&[LDC, SEVEN, INVOKESTATIC, 0, PRINT, NOP], "no row", b"7"),
            (
                &[LDC, SEVEN, INVOKESTATIC, 0, PRINT, ICONST_1, ICONST_0, IDIV],
                "zero",
                b"7",
            ),
            (&[GOTO_W, 0, 0, 0, 6, NOP, RETURN], "done", b""),
            (&[GOTO, 0, 0], "cut", b""),
        ],
    )
}

#[test]
fn traps(rt: HostRuntime) -> Result<(), Fail> {
    check_ends(
        &rt,
        rt.alloc(),
        &[
            (&[ICONST_1, ICONST_0, IDIV], "zero"),
            (&[ICONST_1, ICONST_0, IREM], "zero"),
            (&[ACONST_NULL, ICONST_0, IALOAD], "null"),
            (&[ACONST_NULL, ICONST_0, AALOAD], "null"),
            (&[ACONST_NULL, ICONST_0, BALOAD], "null"),
            (&[ACONST_NULL, ICONST_0, ICONST_0, IASTORE], "null"),
            (&[ACONST_NULL, ICONST_0, ACONST_NULL, AASTORE], "null"),
            (&[ACONST_NULL, ICONST_0, ICONST_0, BASTORE], "null"),
            (&[ACONST_NULL, ARRAYLENGTH], "null"),
            (&[ACONST_NULL, GETFIELD, 0, FIELD], "null"),
            (&[ACONST_NULL, ICONST_0, PUTFIELD, 0, FIELD], "null"),
            (&[ACONST_NULL, INVOKEVIRTUAL, 0, MAIN_ID], "null"),
            (&[ACONST_NULL, INVOKEINTERFACE, 0, FACE_ID, 1, 0], "null"),
            (&[ACONST_NULL, INVOKESPECIAL, 0, OBJECT_INIT], "null"),
            (&[ACONST_NULL, INVOKESPECIAL, 0, MAIN_INIT], "null"),
        ],
    )
}

#[test]
fn traps_by_sizes_and_classes(rt: HostRuntime) -> Result<(), Fail> {
    check_ends(
        &rt,
        rt.alloc(),
        &[
            (&[ICONST_1, NEWARRAY, 10, ICONST_1, IALOAD], "bounds"),
            (&[ICONST_1, NEWARRAY, 10, ICONST_M1, IALOAD], "bounds"),
            (
                &[ICONST_1, NEWARRAY, 10, ICONST_1, ICONST_0, IASTORE],
                "bounds",
            ),
            (&[ICONST_1, NEWARRAY, 4, ICONST_1, BALOAD], "bounds"),
            (
                &[ICONST_1, NEWARRAY, 4, ICONST_1, ICONST_0, BASTORE],
                "bounds",
            ),
            (
                &[ICONST_0, ANEWARRAY, 0, MAIN_CLASS, ICONST_0, AALOAD],
                "bounds",
            ),
            (
                &[
                    ICONST_0,
                    ANEWARRAY,
                    0,
                    MAIN_CLASS,
                    ICONST_0,
                    ACONST_NULL,
                    AASTORE,
                ],
                "bounds",
            ),
            (&[ICONST_M1, NEWARRAY, 10], "size"),
            (&[ICONST_M1, ANEWARRAY, 0, MAIN_CLASS], "size"),
            (&[NEW, 0, MAIN_CLASS, CHECKCAST, 0, SUB_CLASS], "cast"),
            (&[ICONST_1, NEWARRAY, 10, CHECKCAST, 0, MAIN_CLASS], "cast"),
        ],
    )
}

#[test]
fn states_without_a_row(rt: HostRuntime) -> Result<(), Fail> {
    check_ends(
        &rt,
        rt.alloc(),
        &[
            (&[NOP], "no row"),
            (&[POP], "no row"),
            (&[ICONST_1, IADD], "no row"),
            (&[ICONST_1, ACONST_NULL, IADD], "no row"),
            (&[LCONST_1, POP], "no row"),
            (&[LCONST_1, DUP], "no row"),
            (&[LDC, FLOAT], "no row"),
            (&[LDC, LONG], "no row"),
            (&[LDC2_W, 0, SEVEN], "no row"),
            (&[LDC], "no row"),
            (&[ILOAD_0], "no row"),
            (&[ILOAD, 4], "no row"),
            (&[ICONST_1, ISTORE, 4], "no row"),
            (&[ACONST_NULL, ASTORE, 0, ILOAD_0], "no row"),
            (&[LDC, TEXT, ASTORE, 0], "no row"),
            (
                &[ICONST_1, ICONST_1, ICONST_1, ICONST_1, ICONST_1],
                "no row",
            ),
        ],
    )
}

#[test]
fn references_without_a_row(rt: HostRuntime) -> Result<(), Fail> {
    check_ends(
        &rt,
        rt.alloc(),
        &[
            (&[ICONST_1, NEWARRAY, 5], "no row"),
            (&[ICONST_1, ANEWARRAY, 0, NO_CLASS], "no row"),
            (
                &[ICONST_1, NEWARRAY, 4, ICONST_0, ICONST_2, BASTORE],
                "no row",
            ),
            (&[ICONST_1, NEWARRAY, 10, ICONST_0, BALOAD], "no row"),
            (
                &[
                    ICONST_1, ANEWARRAY, 0, SUB_CLASS, ICONST_0, NEW, 0, MAIN_CLASS, AASTORE,
                ],
                "no row",
            ),
            (&[NEW, 0, MAIN_CLASS, ARRAYLENGTH], "no row"),
            (&[NEW, 0, FACE], "no row"),
            (&[NEW, 0, NO_CLASS], "no row"),
            (&[ACONST_NULL, CHECKCAST, 0, NO_CLASS], "no row"),
            (&[ACONST_NULL, INSTANCEOF, 0, NO_CLASS], "no row"),
            (&[GETSTATIC, 0, FIELD], "no row"),
            (&[ACONST_NULL, GETFIELD, 0, STATIC_FIELD], "no row"),
            (&[ACONST_NULL, PUTSTATIC, 0, STATIC_FIELD], "no row"),
            (&[NEW, 0, OBJECT, GETFIELD, 0, FIELD], "no row"),
        ],
    )
}

#[test]
fn calls_and_jumps_without_a_row(rt: HostRuntime) -> Result<(), Fail> {
    check_ends(
        &rt,
        rt.alloc(),
        &[
            (&[INVOKESTATIC, 0, NO_METHOD], "no row"),
            (&[INVOKESTATIC, 0, MAIN_ID], "no row"),
            (&[INVOKESTATIC, 0, TWICE], "no row"),
            (&[ACONST_NULL, INVOKESTATIC, 0, TWICE], "no row"),
            (&[NEW, 0, OBJECT, INVOKEVIRTUAL, 0, MAIN_ID], "no row"),
            (&[NEW, 0, MAIN_CLASS, INVOKEVIRTUAL, 0, TWICE], "no row"),
            (
                &[NEW, 0, SUB_CLASS, INVOKEINTERFACE, 0, FACE_ID, 2, 0],
                "no row",
            ),
            (
                &[NEW, 0, SUB_CLASS, INVOKEINTERFACE, 0, FACE_ID, 1, 1],
                "no row",
            ),
            (&[NEW, 0, SUB_CLASS, INVOKEVIRTUAL, 0, FACE_ID], "no row"),
            (&[ACONST_NULL, INVOKESPECIAL, 0, NO_METHOD], "no row"),
            (&[ICONST_1, IRETURN], "no row"),
            (&[ACONST_NULL, ARETURN], "no row"),
            (&[GOTO, 0xff, 0xff], "no row"),
            (&[GOTO, 0, 3], "no row"),
            (&[ICONST_1, IFEQ, 0x80, 0], "no row"),
            (&[ICONST_1, NEW, 0], "no row"),
        ],
    )
}
