//! The blocks of pages.

use std::process::ExitCode;
use std::{env, fs, io};

/// What plays blocks.
pub trait Blocks {
    /// Makes the calls of a block's lines. How many lines have the right answer.
    fn right_lines(&self, rt: &HostRuntime, block: &[&str]) -> io::Result<usize>;
}

/// Whether each line of a page's blocks is as written.
fn holds<B: Blocks>(rt: &HostRuntime, blocks: &B, path: &str) -> io::Result<bool> {
    let text = fs::read_to_string(rt, path)?;
    let mut block: Vec<&str> = Vec::new(rt.alloc());
    let (mut right, mut all) = (0usize, 0usize);
    for line in text.lines() {
        match line.strip_prefix("    ") {
            Some(call) => block.push(call)?,
            None => {
                right = right.saturating_add(blocks.right_lines(rt, block.as_slice())?);
                all = all.saturating_add(block.len());
                block.clear();
            }
        }
    }
    right = right.saturating_add(blocks.right_lines(rt, block.as_slice())?);
    all = all.saturating_add(block.len());
    println!(rt; "{path}: {right} of {all} lines as written")?;
    Ok(right == all)
}

/// Whether each line of the pages that the program's words name is as written, as an exit code.
pub fn all_hold<B: Blocks>(rt: &HostRuntime, blocks: &B) -> io::Result<ExitCode> {
    let words: Vec<String> = env::args(rt)?.collect(rt.alloc())?;
    let mut is_right = true;
    for path in words.iter().skip(1) {
        is_right = holds(rt, blocks, path.as_str())? && is_right;
    }
    if is_right {
        Ok(ExitCode::SUCCESS)
    } else {
        Ok(ExitCode::FAILURE)
    }
}
