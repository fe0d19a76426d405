ghost use Rattle.jp_outside.specs.Files.{AreDistinct};

use crate::jpred;
use jp_outside::{MemSink, MemSource, MemStore, StoredFile};
use std::alloc::{AllocError, Global};
use std::process::Abort;
use std::test::Fail;

const ONE: &[u8] = b"class Main { static void main() { Io.print(7); Io.print(-2147483648); } }";

const USAGE: &[u8] =
    b"usage: jpred compile U.jp | link M | run [--steps N] M | go [--steps N] M U.jp .. | gen K U.jp\n";

/// The devices of a row, and the calls at which they fail.
#[derive(Drop)]
struct Devices {
    store: MemStore,
    out: MemSink,
    diag: MemSink,
}

/// The devices over one file, each with the one call at which it fails, where 0 is none.
fn over_one_file(
    alloc: Global,
    name: &str,
    text: &[u8],
    fail: [u64; 3],
) -> Result<Devices, AllocError> {
    let file = StoredFile::new(name.to_string(alloc)?, text.to_vec(alloc)?);
    Ok(Devices {
        store: MemStore::new(vec![in alloc; file]?, vec![in alloc; fail[0]]?),
        out: MemSink::new(alloc, 4096, vec![in alloc; fail[1]]?)?,
        diag: MemSink::new(alloc, 4096, vec![in alloc; fail[2]]?)?,
    })
}

/// Runs the words over the devices, and compares the status and what the two sinks took.
fn expect(
    rt: &impl Abort,
    alloc: Global,
    words: &[&str],
    mut devices: Devices,
    status: u8,
    out: &[u8],
    diag: &[u8],
) -> Result<MemStore, Fail> {
    let mut given = Vec::new(alloc);
    for word in words {
        given.push(word.to_string(alloc)?)?;
    }
    let mut input = MemSource::new(b"in".to_vec(alloc)?, Vec::new(alloc));
    let answered = jpred(
        alloc,
        &given,
        &mut devices.store,
        &mut input,
        &mut devices.out,
        &mut devices.diag,
    );
    assert_eq!(rt; answered, status);
    assert_eq!(rt; devices.out.taken(), out);
    assert_eq!(rt; devices.diag.taken(), diag);
    let Devices { store, .. } = devices;
    Ok(store)
}

#[test]
fn prints_run(rt: HostRuntime) -> Result<(), Fail> {
    let alloc = rt.alloc();
    let one = over_one_file(alloc, "one.jp", ONE, [0; 3])?;
    let store = expect(
        &rt,
        alloc,
        &["go", "Main", "one.jp"],
        one,
        0,
        b"7-2147483648",
        b"",
    )?;
    let files = store.files();
    assert_eq!(rt; files.len(), 2);
    assert_eq!(rt; files[0].name(), "one.jp");
    assert_eq!(rt; files[0].bytes(), ONE);
    assert_eq!(rt; files[1].name(), "Main.class");
    assert!(rt;
        files[1]
            .bytes()
            .starts_with(b"\xca\xfe\xba\xbe\x00\x00\x00\x30")
    );
    Ok(())
}

#[test]
fn other_units_are_refused(rt: HostRuntime) -> Result<(), Fail> {
    let unended: &[u8] = b"class Main { static void main() { Io.print(7) } }";
    let rows: [(&[u8], &str, u8, &[u8]); 3] = [
        (b"", "m.jp", 3, b"m.jp:1:1: Unexpected\n"),
        (unended, "m.jp", 3, b"m.jp:1:47: Unexpected\n"),
        (ONE, "x.jp", 6, b"missing x.jp\n"),
    ];
    for (text, unit, status, line) in rows {
        let devices = over_one_file(rt.alloc(), "m.jp", text, [0; 3])?;
        expect(
            &rt,
            rt.alloc(),
            &["go", "Main", unit],
            devices,
            status,
            b"",
            line,
        )?;
    }
    Ok(())
}

#[test]
fn other_words_show_the_usage(rt: HostRuntime) -> Result<(), Fail> {
    let alloc = rt.alloc();
    let short = over_one_file(alloc, "one.jp", ONE, [0; 3])?;
    expect(&rt, alloc, &["go", "Main"], short, 2, b"", USAGE)?;
    let silent = over_one_file(alloc, "one.jp", ONE, [0, 0, 1])?;
    expect(&rt, alloc, &["go"], silent, 9, b"", b"")?;
    Ok(())
}

#[test]
fn devices_fail(rt: HostRuntime) -> Result<(), Fail> {
    let rows: [([u64; 3], u8, &[u8], &[u8], usize); 4] = [
        ([1, 0, 0], 8, b"", b"store fault one.jp\n", 1),
        ([2, 0, 0], 8, b"", b"store fault Main.class\n", 2),
        ([0, 1, 0], 9, b"", b"output fault\n", 2),
        ([0, 2, 0], 9, b"7", b"output fault\n", 2),
    ];
    for (fail, status, out, line, files) in rows {
        let devices = over_one_file(rt.alloc(), "one.jp", ONE, fail)?;
        let store = expect(
            &rt,
            rt.alloc(),
            &["go", "Main", "one.jp"],
            devices,
            status,
            out,
            line,
        )?;
        assert_eq!(rt; store.files().len(), files);
    }
    Ok(())
}

/// A program of so many prints of 1.
fn ones(alloc: Global, count: usize) -> Result<String, AllocError> {
    let mut text = "class Main { static void main() {".to_string(alloc)?;
    for _ in 0..count {
        text.push_str(" Io.print(1);")?;
    }
    text.push_str(" } }")?;
    Ok(text)
}

#[test]
fn two_hundred_prints_run(rt: HostRuntime) -> Result<(), Fail> {
    let alloc = rt.alloc();
    let words = ["go", "Main", "m.jp"];
    let none = over_one_file(alloc, "m.jp", ones(alloc, 0)?.as_bytes(), [0; 3])?;
    expect(&rt, alloc, &words, none, 0, b"", b"")?;
    let most = over_one_file(alloc, "m.jp", ones(alloc, 200)?.as_bytes(), [0; 3])?;
    let written = vec![in alloc; b'1'; 200]?;
    expect(&rt, alloc, &words, most, 0, &written, b"")?;
    let more = over_one_file(alloc, "m.jp", ones(alloc, 201)?.as_bytes(), [0; 3])?;
    expect(&rt, alloc, &words, more, 3, b"", b"m.jp:1:2635: NotYet\n")?;
    Ok(())
}

#[test]
fn other_texts_of_programs_run(rt: HostRuntime) -> Result<(), Fail> {
    let rows: [(&str, &str); 6] = [
        (
            "class Main{static void main(){Io.print(-0);Io.print(2147483647);}}",
            "02147483647",
        ),
        (
            "\t\n\x0c\r class\tMain\n{\rstatic\x0cvoid  main\n(\n)\n{\nIo\n.\nprint\t(\r\n-\n12\n)\n;\n}\n}\n",
            "-12",
        ),
        (
            "// one\nclass /* of */ Main { static void main() { /**/ Io.print(1); } } // end",
            "1",
        ),
        (
            "class Main { static void main() { Io.print(0x7f); Io.print(-0X10); Io.print(0xFFFFFFFF); } }",
            "127-16-1",
        ),
        (
            "class Main { static void main() { (Io).print((7)); Io.print(-(2147483648)); } }",
            "7-2147483648",
        ),
        (
            "public class Main { public static void main() { Io.print(3); } }",
            "3",
        ),
    ];
    for (text, out) in rows {
        let devices = over_one_file(rt.alloc(), "m.jp", text.as_bytes(), [0; 3])?;
        let words = ["go", "Main", "m.jp"];
        expect(&rt, rt.alloc(), &words, devices, 0, out.as_bytes(), b"")?;
    }
    Ok(())
}

/// Whether the unit of a class with this name is refused with this rest of a line.
fn is_refused(
    rt: &impl Abort,
    alloc: Global,
    main: &str,
    text: &str,
    rest: &str,
) -> Result<(), Fail> {
    let devices = over_one_file(alloc, "m.jp", text.as_bytes(), [0; 3])?;
    let line = format!(in alloc; "m.jp:{rest}\n")?;
    expect(
        rt,
        alloc,
        &["go", main, "m.jp"],
        devices,
        3,
        b"",
        line.as_bytes(),
    )?;
    Ok(())
}

#[test]
fn faults_have_their_places(rt: HostRuntime) -> Result<(), Fail> {
    let rows: [(&str, &str); 5] = [
        ("class Main {\n  # }", "2:3: BadByte"),
        (
            "class Main { static void main() { Io.print(007); } }",
            "1:44: BadNumber",
        ),
        ("class A { String s = \"a\n\"; }", "1:22: OpenText"),
        (
            "class A { int f() { switch (1) { } return 0; } }",
            "1:21: Outside switch",
        ),
        ("class Main {", "1:13: Unexpected"),
    ];
    for (text, rest) in rows {
        is_refused(&rt, rt.alloc(), "Main", text, rest)?;
    }
    Ok(())
}

#[test]
fn other_units_are_not_yet_run(rt: HostRuntime) -> Result<(), Fail> {
    let rows: [(&str, &str, &str); 12] = [
        ("Main", "class Other { static void main() { } }", "1:7"),
        ("Io", "class Io { static void main() { } }", "1:7"),
        ("Main", "class Main { }", "1:7"),
        (
            "Main",
            "class Main { static void main() { } } class B { }",
            "1:45",
        ),
        (
            "Main",
            "class Main {\n  static void main() { }\n  int f;\n}",
            "3:7",
        ),
        ("Main", "class Main { void main() { } }", "1:19"),
        ("Main", "class Main { static void main(int x) { } }", "1:35"),
        (
            "Main",
            "class Main { static void main() { int x; } }",
            "1:35",
        ),
        (
            "Main",
            "class Main { static void main() { Io.println(7); } }",
            "1:35",
        ),
        (
            "Main",
            "class Main { static void main() { Io.print(2147483648); } }",
            "1:44",
        ),
        (
            "Main",
            "class Main { static void main() { Io.print(-x); } }",
            "1:45",
        ),
        (
            "Main",
            "class Main { static void main() { Io.print(7, 8); } }",
            "1:47",
        ),
    ];
    for (main, text, place) in rows {
        let rest = format!(in rt.alloc(); "{place}: NotYet")?;
        is_refused(&rt, rt.alloc(), main, text, &rest)?;
    }
    Ok(())
}
