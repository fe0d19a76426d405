use crate::words::read_words;
use std::alloc::Global;
use std::test::Fail;

/// Whether the words ask for nothing.
fn is_nothing(words: &[String]) -> bool {
    read_words(words).is_none()
}

#[test]
fn go(rt: HostRuntime) -> Result<(), Fail> {
    let alloc = rt.alloc();
    let words = [
        "go".to_string(alloc)?,
        "Main".to_string(alloc)?,
        "one.jp".to_string(alloc)?,
    ];
    match read_words(&words) {
        Some(command) => {
            assert_eq!(rt; command.main, "Main");
            assert_eq!(rt; command.unit, "one.jp");
        }
        None => return Err(Fail::from("go Main one.jp")),
    }
    Ok(())
}

/// Whether `go` with these words asks for nothing.
fn is_wrong(alloc: Global, main: &str, unit: &str) -> Result<bool, Fail> {
    Ok(is_nothing(&[
        "go".to_string(alloc)?,
        main.to_string(alloc)?,
        unit.to_string(alloc)?,
    ]))
}

#[test]
fn other_words(rt: HostRuntime) -> Result<(), Fail> {
    let alloc = rt.alloc();
    assert!(rt; is_nothing(&[]));
    assert!(rt; is_nothing(&["go".to_string(alloc)?, "Main".to_string(alloc)?]));
    assert!(rt; !is_wrong(alloc, "Main", "a.jp")?);
    let cases = [
        ("Main", ".jp"),
        ("Main", "one.java"),
        ("while", "one.jp"),
        ("volatile", "one.jp"),
        ("1Main", "one.jp"),
        ("", "one.jp"),
        ("Ma-in", "one.jp"),
        ("M\u{e4}in", "one.jp"),
    ];
    for (main, unit) in cases {
        assert!(rt; is_wrong(alloc, main, unit)?);
    }
    Ok(())
}
