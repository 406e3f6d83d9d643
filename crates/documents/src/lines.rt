//! What a line of a session prints: the few forms of a shell's line that are replayed.

use crate::answers::shown_of;
use std::alloc::{AllocError, Global};
use std::io::ErrorKind;
use std::sync::Wait;
use std::thread::Threads;
use std::{fs, io};

/// A line of the replay itself in place of what a command prints: it is never what a document shows.
fn remark(rt: &HostRuntime, text: &str) -> io::Result<Vec<u8>> {
    let line = format!(in rt.alloc(); "({text})\n")?;
    Ok(line.into_bytes())
}

/// The bytes of a file.
fn content(rt: &HostRuntime, file: &str) -> io::Result<Vec<u8>> {
    match fs::read(rt, file) {
        Ok(bytes) => Ok(bytes),
        Err(error) if error.kind() == ErrorKind::OutOfMemory => Err(error),
        Err(_) => remark(rt, "this file can't be read"),
    }
}

/// What `printf` writes of a text: none where it has a `%`, or a `\` before another letter than `n`, `r` and `t`.
fn unescaped(alloc: Global, text: &str) -> Result<Option<String>, AllocError> {
    let mut written = String::new(alloc);
    let mut is_escaped = false;
    for letter in text.chars() {
        match (is_escaped, letter) {
            (true, 'n') => written.push('\n')?,
            (true, 'r') => written.push('\r')?,
            (true, 't') => written.push('\t')?,
            (false, '\\') => {}
            (true, _) | (false, '%') => return Ok(None),
            (false, letter) => written.push(letter)?,
        }
        is_escaped = !is_escaped && letter == '\\';
    }
    Ok(if is_escaped { None } else { Some(written) })
}

/// What `echo 'TEXT'` or `printf 'TEXT'` writes: none of another command.
fn written(alloc: Global, command: &str) -> Result<Option<String>, AllocError> {
    let Some((program, quoted)) = command.split_once(" '") else {
        return Ok(None);
    };
    match quoted.split_once('\'') {
        Some((text, "")) if program == "echo" => Ok(Some(format!(in alloc; "{text}\n")?)),
        Some((text, "")) if program == "printf" => unescaped(alloc, text),
        _ => Ok(None),
    }
}

/// The words of a command: those between spaces, and what stands between two quotes as one.
fn words_of(alloc: Global, command: &str) -> Result<Vec<&str>, AllocError> {
    let mut words = Vec::new(alloc);
    let mut is_quoted = false;
    for part in command.split('\'') {
        if is_quoted {
            words.push(part)?;
        } else {
            for word in part.split(' ') {
                if !word.is_empty() {
                    words.push(word)?;
                }
            }
        }
        is_quoted = !is_quoted;
    }
    Ok(words)
}

/// What a command alone prints, `./loom ..` or `cat FILE`, to which bytes may be piped.
fn shown(
    rt: &HostRuntime,
    threads: &(impl Threads + Wait + Sync),
    piped: Option<&[u8]>,
    command: &str,
) -> io::Result<Vec<u8>> {
    let words = words_of(rt.alloc(), command)?;
    match words.as_slice() {
        [program, file] if *program == "cat" => content(rt, file),
        [program, ..] if *program == "./loom" => shown_of(rt, threads, piped, words.as_slice()),
        _ => remark(rt, "no command that is replayed"),
    }
}

/// What `COMMAND` or `WRITING | COMMAND` prints.
fn shown_of_pipe(
    rt: &HostRuntime,
    threads: &(impl Threads + Wait + Sync),
    line: &str,
) -> io::Result<Vec<u8>> {
    let Some((writing, command)) = line.split_once(" | ") else {
        return shown(rt, threads, None, line);
    };
    match written(rt.alloc(), writing)? {
        Some(text) => shown(rt, threads, Some(text.as_bytes()), command),
        None => remark(rt, "no command that is replayed"),
    }
}

/// What a line prints: what its commands print, or nothing if `| diff - FILE` follows them and the file holds exactly that.
pub fn printed(
    rt: &HostRuntime,
    threads: &(impl Threads + Wait + Sync),
    typed: &str,
) -> io::Result<Vec<u8>> {
    let Some((line, file)) = typed.split_once(" | diff - ") else {
        return shown_of_pipe(rt, threads, typed);
    };
    let mut text = shown_of_pipe(rt, threads, line)?;
    if text.as_slice() == content(rt, file)?.as_slice() {
        text.clear();
    }
    Ok(text)
}
