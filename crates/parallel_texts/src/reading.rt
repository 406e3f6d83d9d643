//! Reads an input text by several threads.

ghost use Rattle.std.specs.Prelude.{◌≡◌, map, IfErr, IfOk, IfSome};
ghost use Rattle.std.specs.List.{AllZip};
ghost use Rattle.record_core.specs.Inputs.{input_of};
ghost use Rattle.collector.specs.InputText.{IsReadFrom, IsRefused};
ghost use Rattle.collector.specs.Parts.{IsPart};

use collector::{Epochs, InputRefusal, cut_lines, find, join_parts, read_input, read_part};
use rayon::prelude::*;
use record_core::DeclaredInput;
use std::alloc::Global;
use std::thread::Threads;

/// From this number of bytes on, threads bring more than they cost.
const MANY_BYTES: usize = 1_048_576;

/// The most parts of a text.
const MAX_PARTS: u32 = 16;

/// The epochs of each text, read side by side in threads, as far as threads can be started.
fn read_side_by_side<R: Threads + Sync>(
    rt: &R,
    alloc: Global,
    texts: &[&[u8]],
    inputs: &[DeclaredInput],
) -> Result<Vec<Epochs>, InputRefusal>
    ensures { IfOk result (λ v. AllZip (λ t e. IsPart (map input_of inputs.now) 1 t.now e) texts.now v.items) }
{
    texts
        .par_iter()
        .with_min_len(1)
        .map(
            |text: &&[u8]| -> Result<Epochs, InputRefusal>
                ensures { IfOk result (IsPart (map input_of inputs.entry.now) 1 text.now.now) }
            { read_part(alloc, text, inputs) },
        )
        .collect::<Result<Vec<Epochs>, InputRefusal>>(rt, alloc)?
}

/// The epochs of a text whose parts are read side by side; `None` where that can't be done, or a part can't be read.
fn read_parts<R: Threads + Sync>(
    rt: &R,
    alloc: Global,
    count: usize,
    text: &[u8],
    inputs: &[DeclaredInput],
) -> Option<Epochs>
    ensures { IfSome result (IsReadFrom (map input_of inputs.now) text.now) }
{
    let end = find(text, b'\n')?;
    let (head, rest) = text.split_at(end + 1);
    let Ok(first) = read_input(alloc, head, inputs) else {
        return None;
    };
    let Ok(texts) = cut_lines(alloc, rest, count) else {
        return None;
    };
    let Ok(parts) = read_side_by_side(rt, alloc, texts.as_slice(), inputs) else {
        return None;
    };
    join_parts(first, parts)
}

/// As `collector::read_input`, by at most that many threads where the text is long: it is cut at line ends, and the parts are read side by side. Where
/// one of them can't be read, the whole text is read again in the caller's thread, to find its first faulty line.
pub fn read_by_threads<R: Threads + Sync>(
    rt: &R,
    alloc: Global,
    threads: u32,
    text: &[u8],
    inputs: &[DeclaredInput],
) -> Result<Epochs, InputRefusal>
    ensures read { IfOk result (λ e. IsReadFrom (map input_of inputs.now) text.now e) }
    ensures refused { IfErr result (IsRefused (map input_of inputs.now) text.now) }
{
    let count = threads.min(MAX_PARTS) as usize;
    if count > 1 && text.len() >= MANY_BYTES {
        if let Some(epochs) = read_parts(rt, alloc, count, text, inputs) {
            return Ok(epochs);
        }
    }
    read_input(alloc, text, inputs)
}
