ghost use Rattle.std.specs.Prelude.{◌≡◌, ◌⊎◌, ℕ, List, map, string_bytes};
ghost use Rattle.jp_outside.specs.Faults.{Rose};
ghost use Rattle.cli_text.specs.Words.{IsRequest, NamesClass, request_of};
ghost use Rattle.jpred_cli.specs.Outcome.{AskNothing, Answers, outside};
ghost use Rattle.jpred_cli.specs.Answer.{IsStatus, WentSo, ShowsUsage, WasRefused, RunsPrograms, RefusesOthers, ShowsRefusals, MissesUnits};

use crate::command::go;
use cli_text::{Command, Ending, read_words, report};
use jp_outside::{Sink, Source, Store};
use std::alloc::Global;

/// Does what the words behind the program's name ask for, and answers the status that the program ends with.
///
/// `go M U` reads the unit U from the store, puts the class file of its class M there, and runs it: what the program
/// prints goes to `out`. The status is 0 where that was done; 2 where the words ask for nothing; 3 where the unit was
/// refused, which is for a lexical fault, for tokens that are no unit, or for a unit that is no program of prints; 6
/// where the store has no such unit; 8 where the store failed, 9 where `out` or `diag` failed, and 12 where memory was
/// wanting. Each status but 0 writes its line to `diag`; that of 3 has the place, as a line and a column from 1.
pub fn jpred<S: Store, I: Source, O: Sink, D: Sink>(
    alloc: Global,
    words: &[String],
    store: &mut S,
    input: &mut I,
    out: &mut O,
    diag: &mut D,
) -> u8
    // How the command ended, with its cause, what it left outside, and what was reported.
    ensures answers { Answers (map string_bytes words.now)
        (outside (S.files store.old) (S.faults store.old) (O.taken out.old) (O.faults out.old))
        (outside (S.files store.new) (S.faults store.new) (O.taken out.new) (O.faults out.new))
        result (D.taken diag.old) (D.taken diag.new) (D.faults diag.old) (D.faults diag.new) }

    // The same, status by status.
    ensures statuses { IsStatus result }
    ensures done { result ≡ 0 → WentSo (map string_bytes words.now)
        (outside (S.files store.old) (S.faults store.old) (O.taken out.old) (O.faults out.old))
        (outside (S.files store.new) (S.faults store.new) (O.taken out.new) (O.faults out.new)) Ending.Done }
    ensures usage { result ≡ 2 → ShowsUsage (map string_bytes words.now)
        (outside (S.files store.old) (S.faults store.old) (O.taken out.old) (O.faults out.old))
        (outside (S.files store.new) (S.faults store.new) (O.taken out.new) (O.faults out.new)) (D.taken diag.old) (D.taken diag.new) }
    ensures no_command { AskNothing (map string_bytes words.now) → (result ≡ 2) ⊎ (result ≡ 9) }
    ensures refused { result ≡ 3 → WasRefused (map string_bytes words.now)
        (outside (S.files store.old) (S.faults store.old) (O.taken out.old) (O.faults out.old))
        (outside (S.files store.new) (S.faults store.new) (O.taken out.new) (O.faults out.new)) (D.taken diag.old) (D.taken diag.new) }
    ensures refuses { RefusesOthers (map string_bytes words.now) (S.files store.old) result }
    ensures shows { ShowsRefusals (map string_bytes words.now) (S.files store.old) result (D.taken diag.old) (D.taken diag.new) }
    ensures misses { MissesUnits (map string_bytes words.now) (S.files store.old) result }
    ensures runs { RunsPrograms (map string_bytes words.now) (S.files store.old) result }
    ensures missing { result ≡ 6 → WentSo (map string_bytes words.now)
        (outside (S.files store.old) (S.faults store.old) (O.taken out.old) (O.faults out.old))
        (outside (S.files store.new) (S.faults store.new) (O.taken out.new) (O.faults out.new)) Ending.Missing }
    ensures store_fault { result ≡ 8 → Rose (S.faults store.old) (S.faults store.new) }
    ensures output_fault { result ≡ 9 → Rose (O.faults out.old) (O.faults out.new) ⊎ Rose (D.faults diag.old) (D.faults diag.new) }

    // Nothing is read from the input.
    ensures input { I.left input.new ≡ I.left input.old }
    ensures input_faults { I.faults input.new ≡ I.faults input.old }
{
    answer(alloc, words, store, input, out, diag)
}

fn answer<S: Store, I: Source, O: Sink, D: Sink>(
    alloc: Global,
    words: &[String],
    store: &mut S,
    input: &mut I,
    out: &mut O,
    diag: &mut D,
) -> u8
    ensures answers { Answers (map string_bytes words.now)
        (outside (S.files store.old) (S.faults store.old) (O.taken out.old) (O.faults out.old))
        (outside (S.files store.new) (S.faults store.new) (O.taken out.new) (O.faults out.new))
        result (D.taken diag.old) (D.taken diag.new) (D.faults diag.old) (D.faults diag.new) }
    ensures input { I.left input.new ≡ I.left input.old }
    ensures input_faults { I.faults input.new ≡ I.faults input.old }
{
    match read_words(words) {
        Some(command) => carry_out(alloc, command, store, input, out, diag),
        None => report(diag, &Ending::NoCommand, "", ""),
    }
}

fn carry_out<S: Store, I: Source, O: Sink, D: Sink>(
    alloc: Global,
    command: Command<'_>,
    store: &mut S,
    input: &mut I,
    out: &mut O,
    diag: &mut D,
) -> u8
    requires { NamesClass (request_of command) }
    ensures answers { (words : List (List ℕ)) → IsRequest words (request_of command.entry) → Answers words
        (outside (S.files store.old) (S.faults store.old) (O.taken out.old) (O.faults out.old))
        (outside (S.files store.new) (S.faults store.new) (O.taken out.new) (O.faults out.new))
        result (D.taken diag.old) (D.taken diag.new) (D.faults diag.old) (D.faults diag.new) }
    ensures input { I.left input.new ≡ I.left input.old }
    ensures input_faults { I.faults input.new ≡ I.faults input.old }
{
    let ending = go(alloc, command.main, command.unit, store, input, out);
    report(diag, &ending, command.main, command.unit)
}
