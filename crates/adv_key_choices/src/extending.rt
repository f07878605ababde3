//! All exact choices, stream by stream.
ghost use Rattle.std.specs.Prelude.{◌≡◌, ◌<◌, ◌≤◌, All, ◌+◌, OnOk, IfOk, length};
ghost use Rattle.adv_key_choices.specs.Choices.{IsKeyed};
ghost use Rattle.adv_key_choices.specs.Extending.{AddsExact, AddsExtensions, AreExactUpTo, none_chosen, with_key};

use crate::choice::{Choice, KeyedQuery};
use crate::exact::is_exact;
use std::alloc::{AllocError, Global};

// A choice with the key of one stream more.
fn with_key(choice: Choice, stream: usize, key: Option<u8>) -> Choice
    requires { stream < 16 }
    ensures { result ≡ with_key choice stream key }
{
    let mut keys = choice.keys;
    keys[stream] = key;
    Choice { keys }
}

// Adds a choice, where it is exact.
fn add_exact(
    queries: &[KeyedQuery],
    choice: Choice,
    list: &mut Vec<Choice>,
) -> Result<(), AllocError>
    requires { All IsKeyed queries.now }
    ensures { OnOk result (AddsExact queries.now choice list.old.items list.new.items) }
{
    if !is_exact(queries, &choice) {
        return Ok(());
    }
    match list.push(choice) {
        Ok(()) => Ok(()),
        Err(_) => Err(AllocError),
    }
}

// Adds the choices with a key of a stream of so many columns or none, where they are exact.
fn add_extensions(
    queries: &[KeyedQuery],
    choice: Choice,
    stream: usize,
    width: u8,
    list: &mut Vec<Choice>,
) -> Result<(), AllocError>
    requires queries { All IsKeyed queries.now }
    requires stream { stream < 16 }
    ensures { OnOk result (AddsExtensions queries.now choice stream width list.old.items list.new.items) }
{
    for column in 0..width {
        add_exact(queries, with_key(choice, stream, Some(column)), list)?;
    }
    add_exact(queries, with_key(choice, stream, None), list)?;
    Ok(())
}

// The exact choices of one stream more.
fn extend_all(
    alloc: Global,
    queries: &[KeyedQuery],
    widths: &[u8],
    stream: usize,
    choices: &[Choice],
) -> Result<Vec<Choice>, AllocError>
    requires queries { All IsKeyed queries.now }
    requires few { length widths.now ≤ 16 }
    requires stream { stream < length widths.now }
    requires exact { AreExactUpTo queries.now widths.now stream choices.now }
    ensures { IfOk result (λ list. AreExactUpTo queries.now widths.now (stream + 1) list.items) }
{
    let mut list = Vec::new(alloc);
    for i in 0..choices.len() {
        add_extensions(queries, choices[i], stream, widths[stream], &mut list)?;
    }
    Ok(list)
}

// The choice that broadcasts every stream.
fn broadcast_all() -> Choice
    ensures { result ≡ none_chosen }
{
    Choice { keys: [None; 16] }
}

/// Returns all exact choices for streams of so many columns.
pub fn exact_choices(
    alloc: Global,
    queries: &[KeyedQuery],
    widths: &[u8],
) -> Result<Vec<Choice>, AllocError>
    requires queries { All IsKeyed queries.now }
    requires few { length widths.now ≤ 16 }
    ensures { IfOk result (λ list. AreExactUpTo queries.now widths.now (length widths.now) list.items) }
{
    let mut list = Vec::new(alloc);
    add_exact(queries, broadcast_all(), &mut list)?;
    for stream in 0..widths.len() {
        list = extend_all(alloc, queries, widths, stream, list.as_slice())?;
    }
    Ok(list)
}
