//! The known names as constants: each is the place of its text in `KNOWN_NAMES`.

use tree_ids::Name;

pub const SELF: Name = Name(0);

pub const STD: Name = Name(1);

pub const CORE: Name = Name(2);

pub const PRELUDE: Name = Name(3);

pub const RUST_2015: Name = Name(4);

pub const RUST_2018: Name = Name(5);

pub const RUST_2021: Name = Name(6);

pub const RUST_2024: Name = Name(7);

pub const RECURSION_LIMIT: Name = Name(8);

pub const CRATE_TYPE: Name = Name(9);

pub const NO_CORE: Name = Name(10);

pub const NO_STD: Name = Name(11);

pub const RUSTC_COHERENCE_IS_CORE: Name = Name(12);

pub const FEATURE: Name = Name(13);

pub const REGISTER_TOOL: Name = Name(14);

pub const PATH: Name = Name(15);

pub const MACRO_USE: Name = Name(16);

pub const PRELUDE_IMPORT: Name = Name(17);

pub const MACRO_EXPORT: Name = Name(18);

pub const LOCAL_INNER_MACROS: Name = Name(19);

pub const RUSTC_BUILTIN_MACRO: Name = Name(20);

pub const ALLOW_INTERNAL_UNSAFE: Name = Name(21);

pub const PROC_MACRO: Name = Name(22);

pub const PROC_MACRO_ATTRIBUTE: Name = Name(23);

pub const PROC_MACRO_DERIVE: Name = Name(24);

pub const ATTRIBUTES: Name = Name(25);

pub const TEST: Name = Name(26);

pub const CLIPPY: Name = Name(27);

pub const RUSTFMT: Name = Name(28);

pub const DIAGNOSTIC: Name = Name(29);

pub const MIRI: Name = Name(30);

pub const RUST_ANALYZER: Name = Name(31);
