//! The types of relocations of BPF: the numbers of LLVM.

use crate::table::Names;

/// The types with their names.
pub static TYPES: Names<u32> = &[
    (0, "R_BPF_NONE"),
    (1, "R_BPF_64_64"),
    (2, "R_BPF_64_ABS64"),
    (3, "R_BPF_64_ABS32"),
    (4, "R_BPF_64_NODYLD32"),
    (10, "R_BPF_64_32"),
];
