//! What the compiler knows by name: types, attributes, and the macros that are marked as builtin.

use crate::calls::kept;
use def_database::Database;
use def_ids::BuiltinAttr;
use def_interner::Interner;
use either::Either;
use std::alloc::{AllocError, Global};

/// The builtin types, each with its place as its number.
const TYPES: [&str; 19] = [
    "bool", "char", "str", "i8", "i16", "i32", "i64", "i128", "isize", "u8", "u16", "u32", "u64",
    "u128", "usize", "f16", "f32", "f64", "f128",
];

/// The attributes that are no macros.
const INERT: [&str; 83] = [
    "allow",
    "expect",
    "warn",
    "deny",
    "forbid",
    "cfg",
    "cfg_attr",
    "ignore",
    "should_panic",
    "automatically_derived",
    "inline",
    "cold",
    "no_builtins",
    "target_feature",
    "track_caller",
    "no_mangle",
    "export_name",
    "link",
    "link_name",
    "link_section",
    "link_ordinal",
    "no_link",
    "repr",
    "used",
    "unsafe",
    "naked",
    "instruction_set",
    "deprecated",
    "must_use",
    "doc",
    "non_exhaustive",
    "type_length_limit",
    "windows_subsystem",
    "no_main",
    "crate_name",
    "panic_handler",
    "global_allocator",
    "debugger_visualizer",
    "collapse_debuginfo",
    "coverage",
    "optimize",
    "marker",
    "thread_local",
    "fundamental",
    "may_dangle",
    "ffi_const",
    "ffi_pure",
    "const_trait",
    "pointee",
    "do_not_recommend",
    "default",
    "stable",
    "unstable",
    "lang",
    "test_case",
    "bench",
    "test",
    "cfg_eval",
    "cfg_accessible",
    "alloc_error_handler",
    "allow_internal_unsafe",
    "allow_internal_unstable",
    "must_not_suspend",
    "no_sanitize",
    "sanitize",
    "no_coverage",
    "register_tool",
    "cmse_nonsecure_entry",
    "deprecated_safe",
    "cfi_encoding",
    "linkage",
    "needs_allocator",
    "panic_runtime",
    "needs_panic_runtime",
    "compiler_builtins",
    "profiler_runtime",
    "prelude_import",
    "default_lib_allocator",
    "type_const",
    "default_method_body_is_const",
    "export_stable",
    "reexport_test_harness_main",
    "test_runner",
];

/// The macros that are expanded as they stand.
const MACROS: [&str; 22] = [
    "column",
    "file",
    "line",
    "module_path",
    "assert",
    "stringify",
    "asm",
    "global_asm",
    "naked_asm",
    "cfg",
    "core_panic",
    "std_panic",
    "unreachable",
    "log_syntax",
    "trace_macros",
    "format_args",
    "const_format_args",
    "format_args_nl",
    "addr_of",
    "addr_of_mut",
    "offset_of",
    "pattern_type",
];

/// The macros that expand their arguments first. `include` has the number by which the oracle knows it.
const EAGER_MACROS: [&str; 9] = [
    "include",
    "compile_error",
    "concat",
    "concat_idents",
    "concat_bytes",
    "include_bytes",
    "include_str",
    "env",
    "option_env",
];

/// The derives.
const DERIVES: [&str; 12] = [
    "Copy",
    "Clone",
    "Default",
    "Debug",
    "Hash",
    "Ord",
    "PartialOrd",
    "Eq",
    "PartialEq",
    "CoercePointee",
    "RustcDecodable",
    "RustcEncodable",
];

/// The attributes that are macros and have no meaning of their own here.
const ATTRIBUTE_MACROS: [&str; 5] = [
    "cfg_accessible",
    "cfg_eval",
    "derive_const",
    "global_allocator",
    "define_opaque",
];

/// Tells a database of the types and the attributes that are no macros.
fn add_types_and_inert(db: &mut Database, session: &mut Interner) -> Result<(), AllocError> {
    for (number, name) in TYPES.iter().enumerate() {
        let name = session.intern_name(name)?;
        db.add_builtin(name, kept(number))?;
    }
    for name in INERT.iter() {
        let name = session.intern_name(name)?;
        db.add_inert_attr(name)?;
    }
    Ok(())
}

/// Tells a database of the macros and derives.
fn add_macros(db: &mut Database, session: &mut Interner) -> Result<(), AllocError> {
    for (number, name) in MACROS.iter().enumerate() {
        let name = session.intern_name(name)?;
        db.add_builtin_macro(name, Either::Left(kept(number)))?;
    }
    for (number, name) in EAGER_MACROS.iter().enumerate() {
        let name = session.intern_name(name)?;
        db.add_builtin_macro(name, Either::Right(kept(number)))?;
    }
    for (number, name) in DERIVES.iter().enumerate() {
        let name = session.intern_name(name)?;
        db.add_builtin_derive(name, kept(number))?;
    }
    Ok(())
}

/// Tells a database of an attribute that is a macro.
fn add_attribute(
    db: &mut Database,
    session: &mut Interner,
    name: &str,
    attr: BuiltinAttr,
) -> Result<(), AllocError> {
    let name = session.intern_name(name)?;
    db.add_builtin_attr(name, attr)
}

/// Tells a database of the attributes that are macros.
fn add_attributes(db: &mut Database, session: &mut Interner) -> Result<(), AllocError> {
    add_attribute(db, session, "derive", BuiltinAttr::Derive)?;
    add_attribute(db, session, "test", BuiltinAttr::Test)?;
    add_attribute(db, session, "bench", BuiltinAttr::Bench)?;
    add_attribute(db, session, "test_case", BuiltinAttr::TestCase)?;
    for (number, name) in ATTRIBUTE_MACROS.iter().enumerate() {
        add_attribute(db, session, name, BuiltinAttr::Other(kept(number)))?;
    }
    Ok(())
}

/// A database that knows what the compiler knows, and no crate.
pub(crate) fn database(alloc: Global, session: &mut Interner) -> Result<Database, AllocError> {
    let mut db = Database::new(alloc);
    add_types_and_inert(&mut db, session)?;
    add_macros(&mut db, session)?;
    add_attributes(&mut db, session)?;
    Ok(db)
}
