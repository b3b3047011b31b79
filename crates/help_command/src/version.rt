//! The version of the program, as `--version` writes it.
use std::alloc::AllocError;
use std::{env, fs};

/// The version of the project, as CHANGELOG.md has it.
const VERSION: &str = "0.1.0";

/// The toolchain that the program is proved and built with, as `rt version` says.
const TOOLCHAIN: &str = "rattle-kit-13f logic dac8208d650f15bf";

/// Whether a text is a commit's name: 7 to 64 hexadecimal digits.
fn is_commit(text: &str) -> bool {
    if text.len() < 7 || text.len() > 64 {
        return false;
    }
    for byte in text.as_bytes() {
        if !byte.is_ascii_hexdigit() {
            return false;
        }
    }
    true
}

/// The commit that the program was built from, if who installed it left its name in the file `commit` beside it.
fn commit(rt: &HostRuntime) -> Option<String> {
    let program = env::current_exe(rt).ok()?;
    let file = program.with_file_name(rt.alloc(), "commit").ok()?;
    let text = fs::read_to_string(rt, file.as_str()).ok()?;
    let name = text.as_str().trim_end();
    if !is_commit(name) {
        return None;
    }
    String::from_str(rt.alloc(), name).ok()
}

/// The version, the toolchain, and the commit if it is known.
pub(crate) fn version_text(rt: &HostRuntime) -> Result<String, AllocError> {
    let alloc = rt.alloc();
    match commit(rt) {
        Some(commit) => {
            let commit = commit.as_str();
            format!(in alloc; "{VERSION} ({TOOLCHAIN}, commit {commit})")
        }
        None => format!(in alloc; "{VERSION} ({TOOLCHAIN}, commit unknown)"),
    }
}
