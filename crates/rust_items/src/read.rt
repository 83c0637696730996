//! From token trees to items, over a stack of the bodies that are open.

use crate::fault::{ItemError, ItemFault, Stop};
use crate::item::{Item, ItemKind, ItemList, Owner, Span};
use crate::reader::{Reader, kept, span};
use crate::words::Word;
use rust_lexer::{Place, SourceId, Sources, TokenKind};
use rust_trees::Trees;
use std::alloc::{AllocError, Global};

/// A body whose items are being read.
#[derive(Clone, Copy)]
struct Open {
    item: usize,
    /// The end of the body around it, and what that is.
    outer_end: usize,
    outer: Owner,
}

/// Whether an item may stand in what it stands in.
fn is_placed(kind: ItemKind, owner: Owner) -> bool {
    match owner {
        Owner::Module => true,
        Owner::ExternBlock => matches!(
            kind,
            ItemKind::Function { .. }
                | ItemKind::Static
                | ItemKind::TypeAlias
                | ItemKind::MacroCall { .. }
        ),
        Owner::Associated => matches!(
            kind,
            ItemKind::Function { .. }
                | ItemKind::Const
                | ItemKind::TypeAlias
                | ItemKind::MacroCall { .. }
        ),
    }
}

impl<'a> Reader<'a> {
    /// Whether the word here qualifies what follows.
    fn is_qualifier(&self) -> bool {
        let next = self.word(1);
        match self.word(0) {
            Word::Async | Word::Unsafe | Word::Safe | Word::Default | Word::Gen | Word::Auto => {
                matches!(self.kind(1), Some(TokenKind::Identifier)) && next != Word::Other
            }
            Word::Const => matches!(
                next,
                Word::Async
                    | Word::Auto
                    | Word::Extern
                    | Word::Fn
                    | Word::Impl
                    | Word::Trait
                    | Word::Unsafe
            ),
            Word::Extern => next == Word::Fn || self.is_text(1) && self.word(2) == Word::Fn,
            _ => false,
        }
    }

    /// Whether a text stands so many places on.
    fn is_text(&self, further: usize) -> bool {
        matches!(
            self.kind(further),
            Some(TokenKind::Text | TokenKind::RawText)
        )
    }

    /// Goes over the words before an item's own.
    fn qualifiers(&mut self) {
        for _ in self.at..self.end {
            if !self.is_qualifier() {
                break;
            }
            if self.word(0) == Word::Extern && self.is_text(1) {
                self.skip(1);
            }
            self.skip(1);
        }
    }

    /// Takes the item that begins here, up to the body that it opens, if it does. Answers the
    /// places within that body, and what it is to the items there.
    fn item(&mut self, owner: Owner) -> Result<Option<(Span, Owner)>, Stop> {
        let attributes = self.attributes(false)?;
        let start = self.at;
        let visibility = self.visibility()?;
        self.qualifiers();
        let head = self.head()?;
        if !is_placed(head.kind, owner) {
            self.set_place(start, self.end);
            return self.fail(ItemFault::Misplaced);
        }
        self.list.items.push(Item {
            kind: head.kind,
            name: head.name,
            visibility,
            attributes,
            tokens: span(start, self.at),
            owner,
            after: kept(self.list.items.len().saturating_add(1)),
        })?;
        Ok(head.body.map(|body| (body, head.owner())))
    }

    /// Takes what an item's body begins with: attributes of the item, which stand behind its own in
    /// the table.
    fn open_body(&mut self, item: usize, body: Span) -> Result<(), Stop> {
        self.set_place(body.from as usize, body.to as usize);
        let inner = self.attributes(true)?;
        if let Some(item) = self.list.items.get_mut(item) {
            item.attributes.to = inner.to;
        }
        Ok(())
    }

    /// Ends the item whose body ends here, and goes behind it.
    fn close_body(&mut self, done: Open) {
        let after = kept(self.list.items.len());
        self.set_place(self.end.saturating_add(1), done.outer_end);
        if let Some(item) = self.list.items.get_mut(done.item) {
            item.after = after;
        }
    }

    /// Takes the items up to the end.
    fn items(&mut self) -> Result<(), Stop> {
        let mut open: Vec<Open> = Vec::new(self.alloc);
        let mut owner = Owner::Module;
        // Each turn goes on by a token at least.
        for _ in 0..=self.tokens.len() {
            if self.at >= self.end {
                let Some(done) = open.pop() else {
                    return Ok(());
                };
                self.close_body(done);
                owner = done.outer;
                continue;
            }
            let item = self.list.items.len();
            let outer_end = self.end;
            if let Some((body, inner)) = self.item(owner)? {
                open.push(Open {
                    item,
                    outer_end,
                    outer: owner,
                })?;
                self.open_body(item, body)?;
                owner = inner;
            }
        }
        self.fail(ItemFault::WantedItem)
    }

    /// The place at which the reader stands.
    fn place(&self) -> Place {
        let here = self.tokens.get(self.at);
        match here.or(self.tokens.last()) {
            Some(token) => self.sources.place(*token),
            None => Place {
                source: SourceId(0),
                line: 1,
                column: 1,
            },
        }
    }

    /// What has been read, or why it stopped here.
    fn outcome<T: Drop>(&self, read: Result<T, Stop>) -> Result<Result<T, ItemError>, AllocError> {
        match read {
            Ok(value) => Ok(Ok(value)),
            Err(Stop::Memory(error)) => Err(error),
            Err(Stop::Here(fault)) => Ok(Err(ItemError {
                fault,
                place: self.place(),
            })),
        }
    }

    /// Takes the attributes of the whole, and its items.
    fn whole(&mut self) -> Result<(), Stop> {
        let inner = self.attributes(true)?;
        self.list.inner = inner;
        self.items()
    }
}

/// The items of trees, which are of these sources.
pub fn read_items<'a>(
    alloc: Global,
    sources: &'a Sources,
    trees: &'a Trees,
) -> Result<Result<ItemList, ItemError>, AllocError> {
    let mut reader = Reader::new(alloc, sources, trees, 0, trees.len());
    let read = reader.whole();
    match reader.outcome(read)? {
        Ok(()) => {
            let Reader { list, .. } = reader;
            Ok(Ok(list))
        }
        Err(error) => Ok(Err(error)),
    }
}

/// The place behind the item that begins at a place, before an end. It is what a macro takes whose
/// pattern wants an item there.
pub fn item_end<'a>(
    alloc: Global,
    sources: &'a Sources,
    trees: &'a Trees,
    from: usize,
    end: usize,
) -> Result<Result<usize, ItemError>, AllocError> {
    let mut reader = Reader::new(alloc, sources, trees, from, end);
    let read = reader.item(Owner::Module);
    match reader.outcome(read)? {
        Ok(_) => Ok(Ok(reader.at)),
        Err(error) => Ok(Err(error)),
    }
}
