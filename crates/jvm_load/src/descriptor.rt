ghost use Rattle.std.specs.Prelude.{◌≡◌, ◌==◌, ◌<◌, ◌∷◌, ◌++◌, [], not, length, position, option_and_then, IfOk, IfSome};
ghost use Rattle.std.specs.Option.{option_map};
ghost use Rattle.jvm_table.specs.Descriptors as spec;
ghost use Rattle.jvm_load.specs.Texts.{kind_and_rest, joined, text_behind};

use jp_store::Kind;
use std::alloc::{AllocError, Global};
use std::marker::Model;

/// What a method takes and gives.
#[derive(Drop)]
pub struct Signature {
    parameters: Vec<Kind>,
    result: Option<Kind>,
}

impl Model for Signature {
    ghost use Rattle.jvm_table.specs.Descriptors.{Signature as Described};

    ghost Value = { Described };

    ghost view = { λ s. record { parameters = s.parameters.items; result = s.result } };
}

impl Signature {
    /// The kinds of the parameters, in their order.
    pub fn parameters(&self) -> &[Kind]
        ensures { result.now ≡ self.now.parameters }
    {
        self.parameters.as_slice()
    }

    /// The kind of the result, if there is one.
    pub fn result(&self) -> Option<Kind>
        ensures { result ≡ self.now.result }
    {
        self.result
    }
}

fn name_end(text: &[u8]) -> Option<usize>
    ensures position { result ≡ position (λ c. c == 59) text.now }
    ensures within { IfSome result (λ at. at < length text.now) }
{
    text.iter().position(|c| *c == b';')
}

fn count_arrays(text: &[u8]) -> Option<usize>
    ensures position { result ≡ position (λ c. not (c == 91)) text.now }
    ensures within { IfSome result (λ at. at < length text.now) }
{
    text.iter().position(|c| *c != b'[')
}

fn behind_name(text: &[u8]) -> Option<&[u8]>
    ensures { option_map (λ rest. rest.now) result ≡ spec.behind_name text.now }
{
    let at = name_end(text)?;
    let (_, rest) = text.split_at(at + 1);
    Some(rest)
}

fn single_type(text: &[u8]) -> Option<(Kind, &[u8])>
    ensures { option_map kind_and_rest result ≡ spec.single_type text.now }
{
    let (c, rest) = text.split_first()?;
    if *c == b'I' || *c == b'Z' {
        Some((Kind::Number, rest))
    } else if *c == b'J' {
        Some((Kind::LongNumber, rest))
    } else if *c == b'L' {
        Some((Kind::Reference, behind_name(rest)?))
    } else {
        None
    }
}

// The kind of the type that a text begins with, and what is left behind it.
fn first_type(text: &[u8]) -> Option<(Kind, &[u8])>
    ensures { option_map kind_and_rest result ≡ spec.first_type text.now }
{
    let depth = count_arrays(text)?;
    let (_, element) = text.split_at(depth);
    let (kind, rest) = single_type(element)?;
    if depth == 0 {
        Some((kind, rest))
    } else {
        Some((Kind::Reference, rest))
    }
}

// What the part of a method's descriptor behind its parameters says of the result: `Some(None)` for `V`, and `None`
// where it says nothing.
fn result_kind(text: &[u8]) -> Option<Option<Kind>>
    ensures { result ≡ spec.result_of text.now }
{
    let (c, rest) = text.split_first()?;
    if *c == b'V' {
        return if rest.is_empty() { Some(None) } else { None };
    }
    let (kind, rest) = first_type(text)?;
    if rest.is_empty() {
        Some(Some(kind))
    } else {
        None
    }
}

// Reads types up to a `)`, and answers what is left behind it.
fn read_types<'a>(kinds: &mut Vec<Kind>, text: &'a [u8]) -> Result<Option<&'a [u8]>, AllocError>
    ensures { IfOk result (λ rest. option_map (λ rest. (kinds.new.items, rest.now)) rest
        ≡ joined kinds.old.items (spec.types_in (length text.now) text.now)) }
{
    let mut rest = text;
    for _i in 0..text.len() {
        let Some((c, more)) = rest.split_first() else {
            return Ok(None);
        };
        if *c == b')' {
            return Ok(Some(more));
        }
        let Some((kind, more)) = first_type(rest) else {
            return Ok(None);
        };
        kinds.push(kind)?;
        rest = more;
    }
    Ok(None)
}

/// What a method's descriptor says, or `None` where it is none. The error is want of memory.
pub fn read_signature(alloc: Global, descriptor: &[u8]) -> Result<Option<Signature>, AllocError>
    ensures { IfOk result (λ signature. signature ≡ spec.signature_of descriptor.now) }
{
    let Some((c, types)) = descriptor.split_first() else {
        return Ok(None);
    };
    if *c != b'(' {
        return Ok(None);
    }
    let mut parameters = Vec::new(alloc);
    let Some(rest) = read_types(&mut parameters, types)? else {
        return Ok(None);
    };
    let Some(result) = result_kind(rest) else {
        return Ok(None);
    };
    Ok(Some(Signature { parameters, result }))
}

// What is left of a text behind the types up to a `)`.
fn skip_types(text: &[u8]) -> Option<&[u8]>
    ensures { option_map (λ rest. rest.now) result ≡ text_behind (spec.types_in (length text.now) text.now) }
{
    let mut rest = text;
    for _i in 0..text.len() {
        let (c, more) = rest.split_first()?;
        if *c == b')' {
            return Some(more);
        }
        let (_, more) = first_type(rest)?;
        rest = more;
    }
    None
}

/// What a method's descriptor says of the result: `Some(None)` where there is none, and `None` where it is no
/// descriptor. It takes no memory.
pub fn result_of(descriptor: &[u8]) -> Option<Option<Kind>>
    ensures { result ≡ option_map (λ s. s.result) (spec.signature_of descriptor.now) }
{
    let (c, types) = descriptor.split_first()?;
    if *c != b'(' {
        return None;
    }
    result_kind(skip_types(types)?)
}
