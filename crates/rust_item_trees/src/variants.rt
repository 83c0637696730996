//! The variants of enums.

use crate::context::Lowering;
use def_ids::VariantId;
use def_interner::Interner;
use def_oracle::EnumVariant;
use rust_items::{Span, VariantShape};
use std::alloc::AllocError;

impl<'a> Lowering<'a> {
    /// The variants of an enum but for those whose `cfg` is not met, with the next numbers. One
    /// with named fields is no value.
    pub(crate) fn variants(
        &mut self,
        session: &mut Interner,
        written: Span,
        next_variant: &mut usize,
    ) -> Result<Vec<EnumVariant>, AllocError> {
        let mut variants = Vec::new(self.alloc);
        for at in written.from..written.to {
            let Some(variant) = self.context.list.variants.get(at as usize) else {
                break;
            };
            let variant = *variant;
            if self.disabled_by(variant.attributes)?.is_some() {
                continue;
            }
            variants.push(EnumVariant {
                name: self.name(session, variant.name)?,
                id: VariantId(*next_variant),
                value_ctor: variant.shape != VariantShape::Record,
            })?;
            *next_variant = next_variant.saturating_add(1);
        }
        Ok(variants)
    }
}
