use jp_outside::{MemSink, MemSource};
use jp_pred::Name;
use jp_store::TrapKind;
use jvm_load::load;
use jvm_step::End;
use mini_jvm::run;
use std::alloc::Global;
use std::process::Abort;
use std::test::Fail;
use unit_build::build;

/// How a run ends.
#[derive(Clone, Copy, Debug, PartialEq, Eq)]
enum Ends {
    Done,
    Trap(TrapKind),
    Cut,
    Otherwise,
}

use Ends::{Cut, Done, Otherwise, Trap};

/// A unit, the input of its run, what the run writes, and how it ends.
type Row<'a> = (&'a str, &'a str, &'a str, Ends);

const INTEGERS: [Row<'static>; 8] = [
    (
        "class Main { static void main() { Io.print(7); Io.print(-2147483648); } }",
        "",
        "7-2147483648",
        Done,
    ),
    (
        "class Main { static int f(int n) { if (n <= 1) { return 1; } return n * f(n - 1); } static void main() { Io.print(f(13)); } }",
        "",
        "1932053504",
        Done,
    ),
    (
        "class Main { static void main() { while (true) { } } }",
        "",
        "",
        Cut,
    ),
    (
        "class Main { static void main() { Io.print(5); Io.print(1 / 0); } }",
        "",
        "5",
        Trap(TrapKind::DivideByZero),
    ),
    (
        "class Main { static void main() { int c = Io.read(); while (c >= 0) { Io.print(c); c = Io.read(); } } }",
        "ABC",
        "656667",
        Done,
    ),
    (
        "class Main { static void main() { for (int i = 0; i < 5; i++) { if (i == 1) { continue; } if (i == 4) { break; } Io.print(i); } } }",
        "",
        "023",
        Done,
    ),
    (
        "class Main { static int gcd(int a, int b) { while (b != 0) { int r = a % b; a = b; b = r; } return a; } static void main() { Io.print(gcd(84, 36)); Io.print(-7 / 2); Io.print(-7 % 2); } }",
        "",
        "12-3-1",
        Done,
    ),
    (
        "class Main { static boolean odd(int n) { return n != 0 && even(n - 1); } static boolean even(int n) { return n == 0 || odd(n - 1); } static void main() { Io.print(even(10) ? 1 : 0); Io.print(!odd(4) ? 2 : 3); } }",
        "",
        "12",
        Done,
    ),
];

const OBJECTS: [Row<'static>; 8] = [
    (
        "class P { int f() { return 1; } } class Q extends P { int f() { return super.f() + 1; } } class Main { static void main() { P p = new Q(); int[] a = new int[2]; a[1] = p.f(); Io.print(a[1]); Io.print(a.length); Io.print(a[2]); } }",
        "",
        "22",
        Trap(TrapKind::OutOfBounds),
    ),
    (
        "class P { int f() { return 1; } } class Main { static void main() { P p = null; Io.print(p.f()); } }",
        "",
        "",
        Trap(TrapKind::NullReference),
    ),
    (
        "class Main { static void main() { Object o = new Main(); int[] a = new int[-1]; } }",
        "",
        "",
        Trap(TrapKind::NegativeSize),
    ),
    (
        "class A { static int g(int x) { return x + 1; } } class Main { static void main() { Io.print(A.g(1)); } }",
        "",
        "2",
        Done,
    ),
    (
        "interface Shape { int area(); } class Square implements Shape { int side; Square(int s) { side = s; } int area() { return side * side; } } class Flat implements Shape { int area() { return 0; } } class Main { static void main() { Shape[] all = new Shape[2]; all[0] = new Square(3); all[1] = new Flat(); for (int i = 0; i < all.length; i++) { Io.print(all[i].area()); } } }",
        "",
        "90",
        Done,
    ),
    (
        "abstract class E { abstract int value(); } class Num extends E { int n; Num(int n) { this.n = n; } int value() { return n; } } class Add extends E { E l; E r; Add(E l, E r) { this.l = l; this.r = r; } int value() { return l.value() + r.value(); } } class Main { static void main() { E e = new Add(new Num(40), new Num(2)); Io.print(e.value()); Io.text(\"!\\n\"); } }",
        "",
        "42!\n",
        Done,
    ),
    (
        "class A { } class B extends A { } class Main { static void main() { A a = new A(); Io.print(a instanceof B ? 1 : 0); B b = (B) a; } }",
        "",
        "0",
        Trap(TrapKind::BadCast),
    ),
    (
        "class Main { static int count; int kept; static void main() { Main m = new Main(); m.kept += 5; count++; count++; m.kept = m.kept * count; Io.print(m.kept); } }",
        "",
        "10",
        Done,
    ),
];

fn kind_of(end: &End) -> Ends {
    match end {
        End::Done => Done,
        End::Trap(kind) => Trap(*kind),
        End::Cut => Cut,
        _ => Otherwise,
    }
}

#[tactic(auto, using(crate::proofs::Loading::loadable))]
/// Builds the unit of a row, runs it, and compares what it writes and how it ends.
fn runs_so(rt: &impl Abort, alloc: Global, row: Row<'static>) -> Result<(), Fail> {
    let (text, input, written, end) = row;
    let main = Name::from_bytes(alloc, b"Main")?;
    let Ok(built) = build(alloc, &main, text.as_bytes()) else {
        return Err(Fail::from(text));
    };
    assert!(rt; built.has_main);
    assert!(rt; built.files.len() < 1000);
    let program = load(alloc, built.files.as_slice())?;
    let mut source = MemSource::new(Vec::from_slice(alloc, input.as_bytes())?, Vec::new(alloc));
    let mut sink = MemSink::new(alloc, 4096, Vec::new(alloc))?;
    let ended = run(alloc, &program, &main, 100_000, &mut source, &mut sink)?;
    assert_eq!(rt; sink.taken(), written.as_bytes());
    assert_eq!(rt; kind_of(&ended), end);
    Ok(())
}

#[test]
fn integers_run(rt: HostRuntime) -> Result<(), Fail> {
    for row in INTEGERS {
        runs_so(&rt, rt.alloc(), row)?;
    }
    Ok(())
}

#[test]
fn objects_run(rt: HostRuntime) -> Result<(), Fail> {
    for row in OBJECTS {
        runs_so(&rt, rt.alloc(), row)?;
    }
    Ok(())
}
