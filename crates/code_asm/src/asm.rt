ghost use Rattle.std.specs.Prelude.{◌≡◌, ◌<◌, true, false, [], length, IfOk, OnOk, OnErr};
ghost use Rattle.code_asm.specs.Pieces.{OpPiece, JumpPiece, MarkPiece, with_piece, with_label, is_marked, all_land, distance, finished};
ghost use Rattle.code_asm.specs.Kept.{pieces_in, AreKept, IsLaid, short_of};

use crate::AsmFault;
use class_form::{Bytes, Code};
use sqlite_items::Items;
use std::alloc::{AllocError, Global};
use std::marker::Model;

// The greatest number of bytes that a method's code has.
const ROOM: usize = 65_535;

/// A label of an `Asm`, which contracts see as its number.
#[derive(Clone, Copy)]
pub struct Label {
    number: usize,
}

impl Model for Label {
    ghost use Rattle.std.specs.Prelude.{ℕ};

    ghost Value = { ℕ };

    ghost view = { λ label. label.number };

    ghost inverse = { λ number. record { number = number } };
}

/// What some of the bytes are, or a label between them.
#[derive(Clone, Copy)]
pub(crate) enum Part {
    /// An opcode with so many bytes of operands.
    Op(usize),
    /// The opcode of a jump, with two bytes for the distance.
    Jump(Label),
    Mark(Label),
}

/// Code that is being written, which contracts see as a draft of pieces and labels.
#[derive(Drop)]
pub struct Asm {
    bytes: Vec<u8>,
    parts: Vec<Part>,
    // Where each label is marked, if it is. There is room among the parts for the marks of all others.
    places: Vec<Option<usize>>,
}

impl Model for Asm {
    ghost use Rattle.std.specs.Prelude.{◌+◌, ◌≤◌, length, vec_len, vec_capacity};
    ghost use Rattle.code_asm.specs.Pieces.{Draft};

    ghost Value = { Draft };

    ghost use Rattle.code_asm.specs.Kept.{pieces_in, AreKept, unmarked};

    ghost view = { λ asm. record { pieces = pieces_in asm.parts.items asm.bytes.items; labels = length asm.places.items } };

    ghost invariant = { λ asm. AreKept asm.bytes.items asm.parts.items asm.places.items × (vec_len asm.parts + unmarked asm.places.items ≤ vec_capacity asm.parts) };
}

impl Asm {
    /// No code, and no labels.
    pub fn new(alloc: Global) -> Asm
        ensures { result ≡ record { pieces = []; labels = 0 } }
    {
        Asm {
            bytes: Vec::new(alloc),
            parts: Vec::new(alloc),
            places: Vec::new(alloc),
        }
    }

    /// One more label, which isn't marked yet.
    pub fn label(&mut self) -> Result<Label, AllocError>
        ensures number { IfOk result (λ label. label ≡ self.old.labels) }
        ensures ok { OnOk result (self.new ≡ with_label self.old) }
        ensures err { OnErr result (self.new ≡ self.old) }
    {
        let number = self.places.len();
        // Room for the marks of all labels.
        self.parts.reserve(number + 1)?;
        self.places.push(None)?;
        Ok(Label { number })
    }

    /// Marks a label here. It takes no memory.
    pub fn mark(&mut self, label: Label)
        requires known { label < self.old.labels }
        requires first { is_marked self.old.pieces label ≡ false }
        ensures { self.new ≡ with_piece self.old (MarkPiece label) }
    {
        self.places[label.number] = Some(self.bytes.len());
        self.parts.push_reserved(Part::Mark(label));
    }

    /// An instruction, by its opcode and the bytes of its operands.
    pub fn op(&mut self, opcode: u8, operands: &[u8]) -> Result<(), AllocError>
        ensures ok { OnOk result (self.new ≡ with_piece self.old (OpPiece opcode operands.now)) }
        ensures err { OnErr result (self.new ≡ self.old) }
    {
        self.bytes.reserve(operands.len() + 1)?;
        // Room for this part, and for the marks of all labels.
        self.parts.reserve(self.places.len() + 1)?;
        self.bytes.push_reserved(opcode);
        self.bytes.extend_from_slice(operands)?;
        self.parts.push_reserved(Part::Op(operands.len()));
        Ok(())
    }

    /// A jump to a label, by its opcode.
    pub fn jump(&mut self, opcode: u8, label: Label) -> Result<(), AllocError>
        requires { label < self.old.labels }
        ensures ok { OnOk result (self.new ≡ with_piece self.old (JumpPiece opcode label)) }
        ensures err { OnErr result (self.new ≡ self.old) }
    {
        self.parts.reserve(self.places.len() + 1)?;
        self.bytes.extend_from_slice(&[opcode, 0, 0])?;
        self.parts.push_reserved(Part::Jump(label));
        Ok(())
    }

    /// The code, with the most places that it takes of the stack, and its local variables. `TooLong` comes before
    /// `FarJump`, which tells of the first jump that leads too far.
    pub fn finish(self, alloc: Global, max_stack: u16, max_locals: u16) -> Result<Code, AsmFault>
        requires { all_land self.pieces ≡ true }
        ensures { result ≡ finished self.pieces max_stack max_locals }
    {
        let Asm {
            mut bytes,
            parts,
            places,
        } = self;
        if bytes.len() > ROOM {
            return Err(AsmFault::TooLong(bytes.len() as u64));
        }
        put_distances(bytes.as_mut_slice(), parts.as_slice(), places.as_slice())?;
        Ok(Code {
            max_stack,
            max_locals,
            bytes: Bytes::from_vec(bytes),
            attributes: Items::new(alloc),
        })
    }
}

// Puts each jump's distance behind its opcode.
fn put_distances(bytes: &mut [u8], parts: &[Part], places: &[Option<usize>]) -> Result<(), AsmFault>
    requires kept { AreKept bytes.old parts.now places.now }
    requires short { length bytes.old < 65536 }
    requires lands { all_land (pieces_in parts.now bytes.old) ≡ true }
    ensures { IsLaid (pieces_in parts.now bytes.old) bytes.new result }
{
    let mut at = 0;
    for part in parts {
        match part {
            Part::Op(operands) => at += 1 + *operands,
            Part::Jump(label) => {
                let to = places[label.number].unwrap();
                let [high, low] = short_distance(at, to)?.cast_unsigned().to_be_bytes();
                bytes[at + 1] = high;
                bytes[at + 2] = low;
                at += 3;
            }
            Part::Mark(_) => {}
        }
    }
    Ok(())
}

// How far it is from a jump's opcode to a place, if two signed bytes hold it.
fn short_distance(at: usize, to: usize) -> Result<i16, AsmFault>
    requires at_in { at < 65536 }
    requires to_in { to < 65536 }
    ensures { result ≡ short_of (distance at to) }
{
    let distance = to as i64 - at as i64;
    if distance < -32_768 || 32_767 < distance {
        return Err(AsmFault::FarJump(distance));
    }
    Ok(distance as i16)
}
