//! A text read to its items, and these written line by line.

use crate::show::shown;
use rust_items::{Item, ItemList, read_items};
use rust_lexer::{Place, SourceId, Sources, tokenize};
use rust_trees::Trees;
use std::alloc::{AllocError, Global};
use std::io;

/// The trees of a text, and its items.
#[derive(Drop)]
pub(crate) struct Outline {
    pub(crate) trees: Trees,
    pub(crate) list: ItemList,
}

/// Why a text is not read, and where.
#[derive(Drop)]
pub(crate) struct Wrong {
    pub(crate) place: Place,
    pub(crate) why: String,
}

/// Reads a text.
pub(crate) fn read(
    alloc: Global,
    sources: &Sources,
    id: SourceId,
) -> Result<Result<Outline, Wrong>, AllocError> {
    let tokens = match tokenize(alloc, id, sources.text(id))? {
        Ok(tokens) => tokens,
        Err(error) => {
            let why = format!(in alloc; "{error}")?;
            let place = error.place;
            return Ok(Err(Wrong { place, why }));
        }
    };
    let trees = match Trees::new(alloc, sources, tokens)? {
        Ok(trees) => trees,
        Err(error) => {
            let why = format!(in alloc; "{error}")?;
            let place = error.place;
            return Ok(Err(Wrong { place, why }));
        }
    };
    match read_items(alloc, sources, &trees)? {
        Ok(list) => Ok(Ok(Outline { trees, list })),
        Err(error) => {
            let why = format!(in alloc; "{error}")?;
            let place = error.place;
            Ok(Err(Wrong { place, why }))
        }
    }
}

/// The place at which an item begins, behind its attributes.
fn place_of_item(sources: &Sources, trees: &Trees, item: &Item) -> Option<Place> {
    let first = trees.get(item.tokens.from as usize)?;
    Some(sources.place(first))
}

/// Writes the items of an outline, each with the numbers of those within it.
pub(crate) fn write_items<W: io::Write>(
    alloc: Global,
    sources: &Sources,
    outline: &Outline,
    out: &mut W,
) -> io::Result<()> {
    let Outline { trees, list } = outline;
    for (number, item) in list.items.iter().enumerate() {
        let text = shown(alloc, sources, trees, list, item)?;
        let place = place_of_item(sources, trees, item);
        let (line, column) = place.map_or((0, 0), |place| (place.line, place.column));
        let last = (item.after as usize).saturating_sub(1);
        let attributes = item.attributes.to.saturating_sub(item.attributes.from);
        write!(out, "{line}:{column} {number}..{last} {text}")?;
        if attributes > 0 {
            write!(out, ", attributes: {attributes}")?;
        }
        writeln!(out, "")?;
    }
    Ok(())
}
