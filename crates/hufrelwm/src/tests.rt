//! Runs over folders in memory.

use crate::run::run;
use cargo_packages::Folders;
use source_files::Files;
use std::alloc::{AllocError, Global};
use std::test::Fail;

/// Files by their paths.
#[derive(Clone, Copy)]
struct Memory {
    alloc: Global,
    files: &'static [(&'static str, &'static str)],
}

impl Files for Memory {
    fn read(&self, path: &str) -> Result<Option<Vec<u8>>, AllocError> {
        for (at, text) in self.files {
            if *at == path {
                return Ok(Some(text.as_bytes().to_vec(self.alloc)?));
            }
        }
        Ok(None)
    }

    fn microseconds(&self) -> u64 {
        0
    }
}

impl Folders for Memory {
    fn list(&self, path: &str) -> Result<Vec<String>, AllocError> {
        let mut names: Vec<String> = Vec::new(self.alloc);
        for (at, _) in self.files {
            let below = at
                .strip_prefix(path)
                .and_then(|rest| rest.strip_prefix("/"));
            if let Some((name, _)) = below.and_then(|below| below.split_once('/')) {
                if names.last().is_none_or(|last| last.as_str() != name) {
                    names.push(String::from_str(self.alloc, name)?)?;
                }
            }
        }
        Ok(names)
    }
}

/// A crate with a package that it depends on, which lies among others, and one that is not given.
static PACKAGES: [(&str, &str); 6] = [
    (
        "own/Cargo.toml",
        "[package]\nname = \"own\"\nedition = \"2021\"\n\
         [dependencies]\nlow-level = { version = \"1\", features = [\"more\"] }\nserde = \"1\"\n",
    ),
    (
        "own/src/lib.rs",
        "pub mod a;\npub use a::*;\nuse low_level::{deep::Deep as D, more};\nuse serde::Value;\n\
         low_level::outer! {}\n",
    ),
    (
        "own/src/a.rs",
        "pub struct S;\nuse std::fmt;\nuse super::Value;\nuse fmt::Debug;\nuse self::Missing;\n",
    ),
    ("all/low-level-1.0.0/src/lib.rs", "nonsense"),
    (
        "all/low-level-1.0.12/Cargo.toml",
        "[package]\nname = \"low-level\"\nedition = \"2021\"\n[features]\nmore = []\n",
    ),
    (
        "all/low-level-1.0.12/src/lib.rs",
        "pub mod deep { pub enum Deep { Down } }\n#[cfg(feature = \"more\")] pub fn more() {}\n\
         #[macro_export(local_inner_macros)] macro_rules! outer { () => { inner! {} } }\n\
         #[macro_export] macro_rules! inner { () => { pub struct Made; } }\n",
    ),
];

/// Runs the program, and answers its status and what it wrote to both writers.
fn ran(alloc: Global, words: &[&str]) -> Result<(u8, String), AllocError> {
    let host = Memory {
        alloc,
        files: PACKAGES.as_slice(),
    };
    let (mut out, mut err) = (Vec::new(alloc), Vec::new(alloc));
    let status = run(alloc, words, &host, &mut out, &mut err);
    out.extend_from_slice(err.as_slice())?;
    let text = String::from_utf8_lossy(alloc, out.as_slice())?;
    Ok((status, text))
}

#[test]
fn reports_what_is_not_found(rt: HostRuntime) -> Result<(), Fail> {
    let words = ["hufrelwm", "check", "own", "--crates", "all", "--quiet"];
    let (status, text) = ran(rt.alloc(), words.as_slice())?;
    let expected = "own/src/a.rs:5:11: `use self::Missing` is not found: \
                    there is no `Missing` in `crate::a`\n";
    assert_eq!(rt; text.as_str(), expected);
    assert_eq!(rt; status, 1);
    Ok(())
}

#[test]
fn asks_what_a_path_means(rt: HostRuntime) -> Result<(), Fail> {
    let words = [
        "hufrelwm", "ask", "own", "crate", "D::Down", "--crates", "all",
    ];
    let (status, text) = ran(rt.alloc(), words.as_slice())?;
    let path = "all/low-level-1.0.12/src/lib.rs";
    let described = format!(in rt.alloc();
        "variant low_level::deep::Deep::Down, pub, at {path}:1"
    )?;
    let excerpt =
        " 1 | pub mod deep { pub enum Deep { Down } }\n   |                                ^^^^\n";
    let described = described.as_str();
    let expected = format!(in rt.alloc();
        "types: {described}\ndeclared at {path}:1:32\n{excerpt}\
        values: {described}\ndeclared at {path}:1:32\n{excerpt}macros: nothing\n"
    )?;
    assert_eq!(rt; text.as_str(), expected.as_str());
    assert_eq!(rt; status, 0);
    Ok(())
}

#[test]
fn draws_modules_and_globs(rt: HostRuntime) -> Result<(), Fail> {
    let words = ["hufrelwm", "dot", "own", "--crates", "all"];
    let (status, text) = ran(rt.alloc(), words.as_slice())?;
    let expected =
        "digraph modules {\n    node [shape=box];\n    \"crate\";\n    \"crate::a\";\n    \
                    \"crate\" -> \"crate::a\";\n    \"crate\" -> \"crate::a\" [style=dashed, \
                    label=\"* own/src/lib.rs:2\"];\n}\n";
    assert_eq!(rt; text.as_str(), expected);
    assert_eq!(rt; status, 0);
    Ok(())
}

#[test]
fn writes_reports_as_json(rt: HostRuntime) -> Result<(), Fail> {
    let words = ["hufrelwm", "check", "own", "--crates", "all", "--json"];
    let (status, text) = ran(rt.alloc(), words.as_slice())?;
    let expected = "{\"reports\": [\n{\"at\":{\"column\":11,\"line\":5,\"path\":\"own/src/a.rs\"},\
                    \"kind\":\"unresolved-import\",\"what\":\"`use self::Missing` is not found: \
                    there is no `Missing` in `crate::a`\"}\n], \"not_given\": [\n\
                    {\"crate\":\"serde\",\"imports\":1},\n{\"crate\":\"std\",\"imports\":1}\n], \
                    \"not_run\": [], \"left_over\": {\"imports\": 5, \"macros\": 0}}\n";
    assert_eq!(rt; text.as_str(), expected);
    assert_eq!(rt; status, 1);
    Ok(())
}

#[test]
fn answers_a_status_for_wrong_words(rt: HostRuntime) -> Result<(), Fail> {
    let (status, text) = ran(rt.alloc(), ["hufrelwm", "check", "none"].as_slice())?;
    assert_eq!(rt; text.as_str(), "none: no root file of a crate is there\n");
    assert_eq!(rt; status, 2);
    let (status, _) = ran(rt.alloc(), ["hufrelwm", "chck", "own"].as_slice())?;
    assert_eq!(rt; status, 2);
    let (status, _) = ran(rt.alloc(), ["hufrelwm", "--version"].as_slice())?;
    assert_eq!(rt; status, 0);
    Ok(())
}
