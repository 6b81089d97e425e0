//! A page inliner: the data: references of a page, each with its type and bytes.
//!
//! A reference is in double quotes after `=` and begins with `data:`, as in `<img src="data:,x">`.

ghost use Rattle.std.specs.Prelude.{◌≡◌, IfOk};
ghost use Rattle.std.specs.List.{flat_map};
ghost use Rattle.uses.specs.Pages.{Inlines, IsPage, source_of};
ghost use Rattle.uses.specs.Steps.{FindsReference};

use crate::fetch::{FetchError, Reason, Response, fetch};
use std::alloc::{AllocError, Global};

/// A part of a page.
#[derive(Drop)]
pub enum Part<'a> {
    /// Text as it is, up to the next reference or the end of the page. It may be empty.
    Text(&'a str),
    /// A reference, and its resource.
    Inlined(&'a str, Response),
    /// A reference that was refused, and why.
    Refused(&'a str, Reason),
}

/// Returns the text before the first reference, the reference, and the text from its closing quote on, or None if there
/// is no reference.
fn next_reference<'a>(page: &'a str) -> Option<(&'a str, &'a str, &'a str)>
    ensures { FindsReference page.entry.now result }
{
    let Some(place) = page.find("=\"data:") else {
        return None;
    };
    let (before, rest) = page.split_at(place + 2);
    let Some(end) = rest.find('"') else {
        return None;
    };
    let (reference, after) = rest.split_at(end);
    Some((before, reference, after))
}

/// Returns the part of a reference, or an error if allocation fails.
fn part_of<'a>(alloc: Global, reference: &'a str) -> Result<Part<'a>, AllocError>
    ensures { IfOk result (λ part. Inlines reference.entry.now part) }
{
    match fetch(alloc, reference) {
        Ok(response) => Ok(Part::Inlined(reference, response)),
        Err(FetchError::Network(reason)) => Ok(Part::Refused(reference, reason)),
        Err(FetchError::OutOfMemory) => Err(AllocError),
    }
}

/// Returns the parts of a page, in order: text, and references with their resources. A reference that is refused stays
/// as it is, with the reason. The texts of the parts, one after another, are the page.
///
/// Returns an error if allocation fails.
pub fn inline<'a>(alloc: Global, page: &'a str) -> Result<Vec<Part<'a>>, AllocError>
    ensures parts { IfOk result (λ parts. IsPage page.entry.now parts.items) }
    ensures joined { IfOk result (λ parts. flat_map source_of parts.items ≡ page.entry.now) }
{
    let mut parts = Vec::new(alloc);
    let mut rest = page;
    while let Some((before, reference, after)) = next_reference(rest) {
        parts.push(Part::Text(before))?;
        parts.push(part_of(alloc, reference)?)?;
        rest = after;
    }
    parts.push(Part::Text(rest))?;
    Ok(parts)
}
