//! The attributes that an item has once `cfg` and `cfg_attr` are looked at.

use crate::fault::CfgError;
use crate::meaning::holds;
use crate::parts::{error_at, kept};
use cfg_logic::{CfgFault, CfgOptions};
use rust_items::{Attribute, Span};
use rust_lexer::{Sources, TokenKind};
use rust_trees::Trees;
use std::alloc::{AllocError, Global};

/// The attributes of an item once each `cfg_attr` is resolved, those within others too.
#[derive(Drop)]
pub struct Resolved {
    /// The tokens of each attribute: its path and what follows. No `cfg` and no `cfg_attr` is among
    /// them.
    pub attributes: Vec<Span>,
    /// The number, among the attributes that were given, of the first one that is or brings a `cfg`
    /// that is not met.
    pub disabled_by: Option<u32>,
    /// What is wrong with a `cfg` or `cfg_attr`, which is then taken for met or left out.
    pub faults: Vec<CfgError>,
}

/// What an attribute is to conditional compilation.
#[derive(Clone, Copy, PartialEq, Eq)]
enum Form {
    Cfg,
    CfgAttr,
    Other,
}

/// What the attribute is to conditional compilation that begins at a place.
fn form_at(sources: &Sources, trees: &Trees, at: usize) -> Form {
    match trees.get(at) {
        Some(token) if token.kind == TokenKind::Identifier => match sources.text_of(token) {
            "cfg" => Form::Cfg,
            "cfg_attr" => Form::CfgAttr,
            _ => Form::Other,
        },
        _ => Form::Other,
    }
}

/// The tokens within the parentheses behind the word that an attribute begins with.
fn arguments(trees: &Trees, attribute: Span) -> Option<Span> {
    let open = attribute.from.saturating_add(1);
    let kind = trees.get(open as usize).map(|token| token.kind);
    if open >= attribute.to || kind != Some(TokenKind::OpenParen) {
        return None;
    }
    let close = trees.partner(open as usize);
    if close >= attribute.to as usize {
        return None;
    }
    Some(Span {
        from: open.saturating_add(1),
        to: close as u32,
    })
}

/// The place of the first comma of a span that stands in no group, or the span's end.
fn comma_in(trees: &Trees, span: Span) -> u32 {
    let mut at = span.from;
    for _ in span.from..span.to {
        if at >= span.to {
            break;
        }
        match trees.get(at as usize) {
            Some(token) if token.is_mark(b',') => return at,
            _ => {}
        }
        let after = trees.after(at as usize);
        if after >= span.to as usize {
            break;
        }
        at = after as u32;
    }
    span.to
}

/// What resolves the attributes of one item.
#[derive(Drop)]
struct Resolver<'a> {
    alloc: Global,
    sources: &'a Sources,
    trees: &'a Trees,
    options: &'a CfgOptions,
    resolved: Resolved,
    /// Attributes that are to be looked at, the next one last.
    waiting: Vec<Span>,
}

impl<'a> Resolver<'a> {
    /// Notes a fault at a place.
    fn note(&mut self, at: u32, fault: CfgFault) -> Result<(), AllocError> {
        let error = error_at(self.trees, at as usize, fault);
        self.resolved.faults.push(error)?;
        Ok(())
    }

    /// Whether a predicate holds; none, and a fault is noted, if it is none.
    fn holds(&mut self, predicate: Span) -> Result<Option<bool>, AllocError> {
        match holds(
            self.alloc,
            self.sources,
            self.trees,
            predicate,
            self.options,
        )? {
            Ok(holds) => Ok(Some(holds)),
            Err(error) => {
                self.resolved.faults.push(error)?;
                Ok(None)
            }
        }
    }

    /// Looks at a `cfg` that is, or is brought by, the attribute of a number.
    fn cfg(&mut self, number: u32, attribute: Span) -> Result<(), AllocError> {
        let Some(predicate) = arguments(self.trees, attribute) else {
            return self.note(attribute.from, CfgFault::WantedGroup);
        };
        if self.holds(predicate)? == Some(false) && self.resolved.disabled_by.is_none() {
            self.resolved.disabled_by = Some(number);
        }
        Ok(())
    }

    /// The attributes that a `cfg_attr` has behind its predicate, in their order.
    fn brought(&self, from: u32, to: u32) -> Result<Vec<Span>, AllocError> {
        let mut spans = Vec::new(self.alloc);
        let mut from = from;
        for _ in from..to {
            if from >= to {
                break;
            }
            let comma = comma_in(self.trees, Span { from, to });
            if from < comma {
                spans.push(Span { from, to: comma })?;
            }
            from = comma.saturating_add(1);
        }
        Ok(spans)
    }

    /// Looks at a `cfg_attr`: what it brings waits to be looked at.
    fn cfg_attr(&mut self, attribute: Span) -> Result<(), AllocError> {
        let Some(within) = arguments(self.trees, attribute) else {
            return self.note(attribute.from, CfgFault::WantedGroup);
        };
        let comma = comma_in(self.trees, within);
        let predicate = Span {
            from: within.from,
            to: comma,
        };
        if self.holds(predicate)? != Some(true) {
            return Ok(());
        }
        let spans = self.brought(comma.saturating_add(1), within.to)?;
        for span in spans.iter().rev() {
            self.waiting.push(*span)?;
        }
        Ok(())
    }

    /// Looks at the attribute of a number, and at all that it brings.
    fn attribute(&mut self, number: u32, attribute: Span) -> Result<(), AllocError> {
        self.waiting.push(attribute)?;
        // Each that waits has a token that no other has.
        for _ in attribute.from..attribute.to {
            let Some(next) = self.waiting.pop() else {
                break;
            };
            match form_at(self.sources, self.trees, next.from as usize) {
                Form::Cfg => self.cfg(number, next)?,
                Form::CfgAttr => self.cfg_attr(next)?,
                Form::Other => self.resolved.attributes.push(next)?,
            }
        }
        self.waiting.clear();
        Ok(())
    }
}

/// The attributes of an item, as `#[..]` has them, once each `cfg_attr` is resolved.
pub fn resolve_attributes<'a>(
    alloc: Global,
    sources: &'a Sources,
    trees: &'a Trees,
    attributes: &[Attribute],
    options: &'a CfgOptions,
) -> Result<Resolved, AllocError> {
    let mut resolver = Resolver {
        alloc,
        sources,
        trees,
        options,
        resolved: Resolved {
            attributes: Vec::new(alloc),
            disabled_by: None,
            faults: Vec::new(alloc),
        },
        waiting: Vec::new(alloc),
    };
    for (number, attribute) in attributes.iter().enumerate() {
        let number = kept(number);
        resolver.attribute(number, attribute.tokens)?;
    }
    let Resolver { resolved, .. } = resolver;
    Ok(resolved)
}
