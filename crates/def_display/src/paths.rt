//! Names and paths as text.

use def_interner::Interner;
use item_tree::{ModPath, Name, PathKind};
use std::fmt;

/// A name by its text, and `?` where the session does not know it.
#[derive(Clone, Copy)]
pub struct ShownName<'a> {
    pub name: Name,
    pub session: &'a Interner,
}

impl<'a> fmt::Display for ShownName<'a> {
    fn fmt<W: fmt::Write>(&self, f: &mut fmt::Formatter<W>) -> fmt::Result {
        match self.session.text(self.name) {
            Some(text) => f.write_str(text),
            None => f.write_str("?"),
        }
    }
}

/// A path as it is written, as `crate::a::T`, `super::super::b`, `self::c` or `::d::e`.
#[derive(Clone, Copy)]
pub struct ShownPath<'a> {
    pub path: &'a ModPath,
    pub session: &'a Interner,
}

/// What a path begins with, and whether that is a segment.
fn write_beginning<W: fmt::Write>(
    f: &mut fmt::Formatter<W>,
    kind: PathKind,
) -> Result<bool, fmt::Error> {
    match kind {
        PathKind::Plain => return Ok(false),
        PathKind::Abs => f.write_str("")?,
        PathKind::Crate => f.write_str("crate")?,
        PathKind::DollarCrate(_) => f.write_str("$crate")?,
        PathKind::Super(0) => f.write_str("self")?,
        PathKind::Super(levels) => {
            f.write_str("super")?;
            for _ in 1..levels {
                f.write_str("::super")?;
            }
        }
    }
    Ok(true)
}

impl<'a> fmt::Display for ShownPath<'a> {
    fn fmt<W: fmt::Write>(&self, f: &mut fmt::Formatter<W>) -> fmt::Result {
        let mut follows = write_beginning(f, self.path.kind)?;
        for name in self.path.segments.as_slice() {
            if follows {
                f.write_str("::")?;
            }
            let shown = ShownName {
                name: *name,
                session: self.session,
            };
            write!(f, "{shown}")?;
            follows = true;
        }
        Ok(())
    }
}
