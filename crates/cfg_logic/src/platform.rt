//! What `rustc` sets of itself for Linux on x86-64.

use crate::options::CfgOptions;
use std::alloc::{AllocError, Global};

/// The flags of a build for that platform with debug assertions.
const FLAGS: [&str; 10] = [
    "debug_assertions",
    "overflow_checks",
    "target_has_atomic",
    "target_has_atomic_load_store",
    "target_has_reliable_f16",
    "target_has_reliable_f16_math",
    "target_has_reliable_f128",
    "target_thread_local",
    "ub_checks",
    "unix",
];

/// Its keys that have one value.
const VALUES: [(&str, &str); 11] = [
    ("fmt_debug", "full"),
    ("panic", "unwind"),
    ("relocation_model", "pic"),
    ("target_abi", ""),
    ("target_arch", "x86_64"),
    ("target_endian", "little"),
    ("target_env", "gnu"),
    ("target_family", "unix"),
    ("target_os", "linux"),
    ("target_pointer_width", "64"),
    ("target_vendor", "unknown"),
];

/// The features of its processor that are taken for granted.
const PROCESSOR_FEATURES: [&str; 4] = ["fxsr", "sse", "sse2", "x87"];

/// The keys that say for which widths there are atomic numbers.
const ATOMIC_KEYS: [&str; 3] = [
    "target_has_atomic",
    "target_has_atomic_equal_alignment",
    "target_has_atomic_load_store",
];

/// Those widths.
const ATOMIC_WIDTHS: [&str; 5] = ["16", "32", "64", "8", "ptr"];

impl CfgOptions {
    /// What `rustc` sets for Linux on x86-64 in a build with debug assertions.
    pub fn linux(alloc: Global) -> Result<CfgOptions, AllocError> {
        let mut options = CfgOptions::new(alloc);
        for name in FLAGS.iter() {
            options.add_flag(name)?;
        }
        for (key, value) in VALUES.iter() {
            options.add_value(key, value)?;
        }
        for feature in PROCESSOR_FEATURES.iter() {
            options.add_value("target_feature", feature)?;
        }
        for key in ATOMIC_KEYS.iter() {
            for width in ATOMIC_WIDTHS.iter() {
                options.add_value(key, width)?;
            }
        }
        Ok(options)
    }
}
