//! The words of lines of text.

use def_bindings::{ImportOrExternCrate, Visibility};
use def_ids::{Def, MacroId, ModuleId};
use def_interner::Interner;
use def_rules::{DefDiagnostic, DefDiagnosticKind};
use item_tree::{Crate, HirFileId, Name, Text};
use std::io;

/// A word of a line: a text, a name, or numbers with what stands before and between them, as
/// `in:3`, `import:4.0` or `mod:1/0`. A space stands before each but the bare ones, with which lines
/// begin, and the segments of paths.
#[derive(Clone, Copy)]
pub enum Word {
    Bare(&'static str),
    Text(&'static str),
    Name(Name),
    /// A segment of a path, with what stands before it.
    Segment(&'static str, Name),
    Number(&'static str, usize),
    Numbers(&'static str, usize, char, usize),
    /// The files that the diagnostic of this number looked for.
    Files(usize),
    /// The end of the line.
    End,
}

/// A module of the crate in work by its number, and any other one with its crate.
fn module_word(krate: Crate, id: ModuleId) -> Word {
    if id.map.krate == krate {
        Word::Number("mod:", id.index)
    } else {
        Word::Numbers("mod:", id.map.krate.0, '/', id.index)
    }
}

fn macro_word(id: MacroId) -> Word {
    match id {
        MacroId::MacroRules(id) => Word::Number("macro_rules:", id.0),
        MacroId::Macro2(id) => Word::Number("macro:", id.0),
        MacroId::ProcMacro(id) => Word::Number("proc_macro:", id.0),
    }
}

/// A definition, as the map of a crate names it.
pub fn def_word(krate: Crate, def: Def) -> Word {
    match def {
        Def::Module(id) => module_word(krate, id),
        Def::Function(id) => Word::Number("fn:", id.0),
        Def::Struct(id) => Word::Number("struct:", id.0),
        Def::Union(id) => Word::Number("union:", id.0),
        Def::Enum(id) => Word::Number("enum:", id.0),
        Def::Variant(id) => Word::Number("variant:", id.0),
        Def::Const(id) => Word::Number("const:", id.0),
        Def::Static(id) => Word::Number("static:", id.0),
        Def::Trait(id) => Word::Number("trait:", id.0),
        Def::TypeAlias(id) => Word::Number("type:", id.0),
        Def::Builtin(number) => Word::Number("builtin:", number as usize),
        Def::Macro(id) => macro_word(id),
    }
}

pub fn visibility_word(vis: Visibility) -> Word {
    match vis {
        Visibility::Public => Word::Text("pub"),
        Visibility::PubCrate => Word::Text("crate"),
        Visibility::Module(id) => Word::Number("in:", id.index),
    }
}

/// What brought a binding.
pub fn origin_word(origin: Option<ImportOrExternCrate>) -> Word {
    match origin {
        None => Word::Text("decl"),
        Some(ImportOrExternCrate::Import(id)) => {
            Word::Numbers("import:", id.use_id.0, '.', id.idx as usize)
        }
        Some(ImportOrExternCrate::Glob(id)) => {
            Word::Numbers("glob:", id.use_id.0, '.', id.idx as usize)
        }
        Some(ImportOrExternCrate::ExternCrate(id)) => Word::Number("extern:", id.0),
    }
}

/// An item of a file: the file's number, or `m` and the number of the macro call that it comes
/// from, and the number of the item.
pub fn item_word(file: HirFileId, item: usize) -> Word {
    match file {
        HirFileId::File(file) => Word::Numbers("", file.0, ':', item),
        HirFileId::Macro(call) => Word::Numbers("m", call.0, ':', item),
    }
}

/// The text of a name, or none where the session doesn't know it.
pub fn text_of(session: &Interner, name: Name) -> &str {
    session.text(name).unwrap_or("")
}

/// Prints a text behind another one.
fn print_text<W: io::Write>(before: &str, text: &str, out: &mut W) -> io::Result<()> {
    write!(out, "{before}{text}")
}

/// Prints texts, with commas between them, behind a space.
fn print_texts<W: io::Write>(texts: &[Text], out: &mut W) -> io::Result<()> {
    print_text("", " ", out)?;
    let mut before = "";
    for text in texts {
        print_text(before, text.as_str(), out)?;
        before = ",";
    }
    Ok(())
}

/// The files that the diagnostic of a number looked for.
fn files_of(diagnostics: &[DefDiagnostic], number: usize) -> &[Text] {
    match diagnostics.get(number) {
        Some(
            DefDiagnostic {
                kind: DefDiagnosticKind::UnresolvedModule { candidates },
                ..
            },
        ) => candidates.as_slice(),
        _ => &[],
    }
}

/// Prints a word.
fn print_word<W: io::Write>(
    session: &Interner,
    diagnostics: &[DefDiagnostic],
    word: Word,
    out: &mut W,
) -> io::Result<()> {
    match word {
        Word::Bare(text) => print_text("", text, out),
        Word::Text(text) => print_text(" ", text, out),
        Word::Name(name) => print_text(" ", text_of(session, name), out),
        Word::Segment(before, name) => print_text(before, text_of(session, name), out),
        Word::Number(before, number) => write!(out, " {before}{number}"),
        Word::Numbers(before, number, mark, place) => {
            write!(out, " {before}{number}{mark}{place}")
        }
        Word::Files(number) => print_texts(files_of(diagnostics, number), out),
        Word::End => print_text("\n", "", out),
    }
}

/// Prints words up to the end of a line. Their names are a session's, and they speak of these
/// diagnostics.
pub fn print_line<W: io::Write>(
    session: &Interner,
    diagnostics: &[DefDiagnostic],
    words: &[Word],
    out: &mut W,
) -> io::Result<()> {
    for word in words {
        print_word(session, diagnostics, *word, out)?;
        if matches!(word, Word::End) {
            break;
        }
    }
    Ok(())
}
