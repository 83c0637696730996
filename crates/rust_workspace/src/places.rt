//! Where items stand in texts.

use crate::workspace::Workspace;
use item_tree::{FileAstId, InFile};
use rust_codebase::{item_at, outermost, token_of_item};
use rust_lexer::Place;

impl Workspace {
    /// The place of an item, of its name if it has one: in a text, also where it is in what a macro
    /// gives. Then it is that of the call, the outermost one.
    pub fn place_of(&self, position: InFile<FileAstId>) -> Option<Place> {
        let (read, item) = item_at(self, outermost(self, position))?;
        let token = token_of_item(read, item)?;
        Some(self.sources.place(token))
    }
}
