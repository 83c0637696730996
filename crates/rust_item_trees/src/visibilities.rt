//! Visibilities, and the constructors of structs.

use crate::context::Lowering;
use crate::fault::LowerFault;
use def_interner::Interner;
use item_tree::{CtorVisibility, RawVisibility, Seq};
use rust_items::{Constructor, Span, Visibility};
use std::alloc::AllocError;

impl<'a> Lowering<'a> {
    /// The visibility by the path behind `in`, or by `super`.
    fn visibility_in(
        &mut self,
        session: &mut Interner,
        path: Span,
    ) -> Result<RawVisibility, AllocError> {
        match self.path(session, path)? {
            Some(path) => Ok(RawVisibility::In(path)),
            None => {
                self.tell(LowerFault::BadPath, self.token(path.from))?;
                Ok(RawVisibility::PubSelf)
            }
        }
    }

    /// The visibility that stands in parentheses behind `pub`.
    fn restricted(
        &mut self,
        session: &mut Interner,
        tokens: Span,
    ) -> Result<RawVisibility, AllocError> {
        match self.word_at(tokens.from) {
            Some("crate") => Ok(RawVisibility::PubCrate),
            Some("self") => Ok(RawVisibility::PubSelf),
            Some("in") => {
                let path = Span {
                    from: tokens.from.saturating_add(1),
                    to: tokens.to,
                };
                self.visibility_in(session, path)
            }
            _ => self.visibility_in(session, tokens),
        }
    }

    /// The visibility of an item or a field.
    pub(crate) fn visibility(
        &mut self,
        session: &mut Interner,
        visibility: Visibility,
    ) -> Result<RawVisibility, AllocError> {
        match visibility {
            Visibility::Private => Ok(RawVisibility::PubSelf),
            Visibility::Public => Ok(RawVisibility::Public),
            Visibility::Restricted(tokens) => self.restricted(session, tokens),
        }
    }

    /// The visibilities of fields.
    fn field_visibilities(
        &mut self,
        session: &mut Interner,
        fields: Span,
    ) -> Result<Seq<RawVisibility>, AllocError> {
        let mut visibilities = Vec::new(self.alloc);
        for at in fields.from..fields.to {
            let Some(field) = self.context.list.fields.get(at as usize) else {
                break;
            };
            visibilities.push(self.visibility(session, *field)?)?;
        }
        Ok(Seq::from_vec(visibilities))
    }

    /// The constructor of a struct. It is as visible as the struct where there are no fields, and
    /// else as the least visible of these.
    pub(crate) fn constructor(
        &mut self,
        session: &mut Interner,
        constructor: Constructor,
        visibility: &RawVisibility,
    ) -> Result<CtorVisibility, AllocError> {
        match constructor {
            Constructor::Absent => Ok(CtorVisibility::NoValueNsCtor),
            Constructor::Fields(fields) if fields.from < fields.to => {
                let visibilities = self.field_visibilities(session, fields)?;
                Ok(CtorVisibility::ValueNsCtorWithMinVis(visibilities))
            }
            Constructor::Unit | Constructor::Fields(_) => {
                Ok(CtorVisibility::ValueNsCtorWithVis(visibility.clone()?))
            }
        }
    }
}
