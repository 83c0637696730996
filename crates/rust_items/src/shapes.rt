//! Fields of tuple structs, and variants.

use crate::fault::{ItemFault, Stop};
use crate::item::{Span, Variant, VariantShape};
use crate::reader::{Reader, span};
use rust_lexer::TokenKind;

impl<'a> Reader<'a> {
    /// Goes over the `,` behind an entry of a list, which may be missing behind the last one.
    fn list_comma(&mut self) -> Result<(), Stop> {
        if self.at >= self.end || self.eat(b',') {
            return Ok(());
        }
        self.fail(ItemFault::WantedComma)
    }

    /// Takes a field of a tuple struct.
    fn field(&mut self) -> Result<(), Stop> {
        let attributes = self.attributes(false)?;
        self.list.attributes.truncate(attributes.from as usize);
        let visibility = self.visibility()?;
        self.list.fields.push(visibility)?;
        let from = self.at;
        self.to_comma_of_type();
        if self.at == from {
            return self.fail(ItemFault::WantedType);
        }
        self.list_comma()
    }

    /// Takes the fields of a tuple struct.
    pub(crate) fn fields(&mut self) -> Result<Span, Stop> {
        let from = self.list.fields.len();
        let outer_end = self.end;
        let within = self.group()?;
        let after = self.at;
        self.set_place(within.from as usize, within.to as usize);
        for _ in self.at..self.end {
            if self.at >= self.end {
                break;
            }
            self.field()?;
        }
        self.set_place(after, outer_end);
        Ok(span(from, self.list.fields.len()))
    }

    /// Takes a variant.
    fn variant(&mut self) -> Result<(), Stop> {
        let attributes = self.attributes(false)?;
        self.visibility()?;
        let name = self.name()?;
        let shape = match self.kind(0) {
            Some(TokenKind::OpenBrace) => VariantShape::Record,
            Some(TokenKind::OpenParen) => VariantShape::Tuple,
            _ => VariantShape::Unit,
        };
        if shape != VariantShape::Unit {
            self.group()?;
        }
        if self.eat(b'=') {
            self.to_comma();
        }
        self.list.variants.push(Variant {
            name,
            shape,
            attributes,
        })?;
        self.list_comma()
    }

    /// Takes the variants of an enum.
    pub(crate) fn variants(&mut self) -> Result<Span, Stop> {
        let from = self.list.variants.len();
        let outer_end = self.end;
        self.generics()?;
        self.ends_head()?;
        let within = self.braced_declaration()?;
        let after = self.at;
        self.set_place(within.from as usize, within.to as usize);
        for _ in self.at..self.end {
            if self.at >= self.end {
                break;
            }
            self.variant()?;
        }
        self.set_place(after, outer_end);
        Ok(span(from, self.list.variants.len()))
    }
}
