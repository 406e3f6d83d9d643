//! The command `encode`.

ghost use Rattle.std.specs.Prelude.{◌≡◌, ◌⊎◌, ◌++◌, IfErr, IfOk, List, None, OnOk, Some, map, option_map, true, ℕ};
ghost use Rattle.collector.specs.Watching.{inner_of};
ghost use Rattle.csv_cells.specs.Texts.{texts_of};
ghost use Rattle.table_commands.specs.Done.{HasEncoded, IsBegunBy, IsEncodedOnto, WritesInput};
ghost use Rattle.table_commands.specs.Read.{IsInputOf, IsReadSchema};
ghost use Rattle.table_commands.specs.Streamed.{IsUnmarked, StaysUnmarked};
ghost use Rattle.table_commands.specs.Written.{IsWriteFault};
ghost use Rattle.tables.specs.Inputs.{AreNumbered};

use crate::input_writer::{END_MARK, InputWriter};
use collector::{Sources, Watched};
use csv_cells::Dictionary;
use schema::Schema;
use std::alloc::Global;
use std::io::Write;
use table_files::{
    Drafts, Fault, SourceFiles, WordFault, begin_dictionary, encoding_dictionary, grown_text,
    is_input_twice, needs_dictionary, paths_of, schema_of, table_fault, write_text, write_with,
};
use tables::{EncodeFault, FileFault, LineSink, encode};

/// What `encode` is asked for.
#[derive(Clone, Copy)]
pub struct Encoding<'a, 'w> {
    pub schema: &'a str,
    pub files: &'w [&'a str],
    pub dictionary: Option<&'a str>,
    /// Whether the input text is to end with the end mark.
    pub end_mark: bool,
}

/// What is encoded: the files of the schema's inputs, in its order.
#[derive(Clone, Copy)]
struct Files<'s, 'a> {
    schema: &'s Schema,
    paths: &'s [&'a str],
    end_mark: bool,
}

/// Why there is no input text.
#[derive(Drop)]
pub enum InputFault<'a> {
    Tables(Fault<'a>),
    /// What takes the lines says why.
    Stopped,
}

/// The fault of files that have no lines.
fn input_fault<'a>(
    alloc: Global,
    schema: &Schema,
    paths: &[&'a str],
    fault: EncodeFault,
) -> InputFault<'a> {
    let path = paths.get(fault.file).copied().unwrap_or("");
    let fault = match (fault.fault, schema.inputs.get(fault.file)) {
        (FileFault::Refused(refusal), Some(table)) => table_fault(alloc, path, table, refusal),
        (FileFault::Read, _) => Fault::Read(path),
        (FileFault::Stopped, _) => return InputFault::Stopped,
        (FileFault::Refused(_) | FileFault::Count, _) => Fault::NoMemory,
    };
    InputFault::Tables(fault)
}

/// Appends the input text of the files, which are those of the schema's inputs, in its order. New texts go to the end of the dictionary.
pub fn append_input<'a, S: Sources<'a>, O: LineSink>(
    alloc: Global,
    sources: &S,
    schema: &Schema,
    paths: &[&'a str],
    dictionary: &mut Dictionary,
    out: &mut O,
) -> Result<(), InputFault<'a>>
    ensures input { OnOk result ((input : List ℕ) × IsInputOf (S.content sources.now) schema.now (map (λ s. s.now) paths.now) (texts_of dictionary.new) input
        × ((first : O) (taken : List ℕ) → O.took first out.old taken → O.took first out.new (taken ++ input))) }
    ensures numbered { OnOk result (AreNumbered schema.now.constants.items (texts_of dictionary.old) (texts_of dictionary.new)) }
    ensures stays { (first : O) → O.stays first out.old → O.stays first out.new }
{
    if paths.len() != schema.inputs.len() {
        return Err(InputFault::Tables(Fault::Words(WordFault::Files)));
    }
    let files = SourceFiles { sources, paths };
    match encode(alloc, schema, dictionary, &files, out) {
        Ok(()) => Ok(()),
        Err(fault) => Err(input_fault(alloc, schema, paths, fault)),
    }
}

/// The input text of the files. New texts go to the end of the dictionary.
fn input_text<'a, S: Sources<'a>>(
    alloc: Global,
    sources: &S,
    schema: &Schema,
    paths: &[&'a str],
    dictionary: &mut Dictionary,
) -> Result<Vec<u8>, Fault<'a>>
    ensures input { IfOk result (λ out. IsInputOf (S.content sources.now) schema.now (map (λ s. s.now) paths.now) (texts_of dictionary.new) out.items) }
    ensures numbered { OnOk result (AreNumbered schema.now.constants.items (texts_of dictionary.old) (texts_of dictionary.new)) }
{
    let mut text = Vec::new(alloc);
    match append_input(alloc, sources, schema, paths, dictionary, &mut text) {
        Ok(()) => Ok(text),
        Err(InputFault::Tables(fault)) => Err(fault),
        Err(InputFault::Stopped) => Err(Fault::NoMemory),
    }
}

/// Writes the input text of the files as it is read, which is to have an end mark, and gives its last lines and the mark, which are still to be written.
/// New texts go to the end of the dictionary.
fn stream_input<'a, S: Sources<'a>, W: Write>(
    alloc: Global,
    sources: &S,
    files: Files<'_, 'a>,
    dictionary: &mut Dictionary,
    out: &mut Watched<W>,
) -> Result<Vec<u8>, Fault<'a>>
    ensures input { IfOk result (λ rest. IsBegunBy (S.content sources.now) files.entry.schema.now (map (λ s. s.now) files.entry.paths.now) (texts_of dictionary.new) true
        (W.contents (inner_of out.old)) (W.contents (inner_of out.new)) rest.items) }
    ensures numbered { OnOk result (AreNumbered files.entry.schema.now.constants.items (texts_of dictionary.old) (texts_of dictionary.new)) }
    ensures fault { IfErr result (λ fault. IsWriteFault fault ⊎ IsUnmarked (W.contents (inner_of out.old)) (W.contents (inner_of out.new))) }
    ensures quiet { OnOk result (IsUnmarked (W.contents (inner_of out.old)) (W.contents (inner_of out.new))) }
{
    let mut writer = InputWriter::new(alloc, out);
    let done = append_input(
        alloc,
        sources,
        files.schema,
        files.paths,
        dictionary,
        &mut writer,
    );
    let InputWriter {
        out,
        mut lines,
        broken,
    } = writer;
    // No effect at run time: the proof reads what was written from this use.
    let _ = &*out;
    if broken {
        return Err(Fault::Write);
    }
    match done {
        Ok(()) => {}
        Err(InputFault::Tables(fault)) => return Err(fault),
        Err(InputFault::Stopped) => return Err(Fault::NoMemory),
    }
    lines.extend_from_slice(END_MARK)?;
    Ok(lines)
}

/// The input text of the files, but for the lines that are written at once where it is to have an end mark. New texts go to the end of the dictionary.
fn begin_input<'a, S: Sources<'a>, W: Write>(
    alloc: Global,
    sources: &S,
    files: Files<'_, 'a>,
    dictionary: &mut Dictionary,
    out: &mut Watched<W>,
) -> Result<Vec<u8>, Fault<'a>>
    ensures input { IfOk result (λ rest. IsBegunBy (S.content sources.now) files.entry.schema.now (map (λ s. s.now) files.entry.paths.now) (texts_of dictionary.new)
        files.entry.end_mark (W.contents (inner_of out.old)) (W.contents (inner_of out.new)) rest.items) }
    ensures numbered { OnOk result (AreNumbered files.entry.schema.now.constants.items (texts_of dictionary.old) (texts_of dictionary.new)) }
    ensures fault { IfErr result (λ fault. IsWriteFault fault ⊎ StaysUnmarked files.entry.end_mark (W.contents (inner_of out.old)) (W.contents (inner_of out.new))) }
    ensures quiet { OnOk result (StaysUnmarked files.entry.end_mark (W.contents (inner_of out.old)) (W.contents (inner_of out.new))) }
{
    if files.end_mark {
        stream_input(alloc, sources, files, dictionary, out)
    } else {
        input_text(alloc, sources, files.schema, files.paths, dictionary)
    }
}

/// Begins with the dictionary of that name, and gives what is left to be written, and the dictionary's text after it, if that has grown.
fn begin_with<'a, S: Sources<'a>, W: Write>(
    alloc: Global,
    sources: &S,
    files: Files<'_, 'a>,
    name: &'a str,
    out: &mut Watched<W>,
) -> Result<(Vec<u8>, Option<Vec<u8>>), Fault<'a>>
    ensures input { IfOk result (λ made. IsEncodedOnto (S.content sources.now) files.entry.schema.now (map (λ s. s.now) files.entry.paths.now) (Some name.now)
        files.entry.end_mark (W.contents (inner_of out.old)) (W.contents (inner_of out.new)) made.0.items) }
    ensures fault { IfErr result (λ fault. IsWriteFault fault ⊎ StaysUnmarked files.entry.end_mark (W.contents (inner_of out.old)) (W.contents (inner_of out.new))) }
    ensures quiet { OnOk result (StaysUnmarked files.entry.end_mark (W.contents (inner_of out.old)) (W.contents (inner_of out.new))) }
{
    let mut dictionary = encoding_dictionary(alloc, sources, files.schema, name)?;
    let count = dictionary.len();
    let rest = begin_input(alloc, sources, files, &mut dictionary, out)?;
    let kept = grown_text(alloc, &dictionary, count)?;
    Ok((rest, kept))
}

/// Encodes with a dictionary, which no other command writes meanwhile.
fn encode_with<'a, S: Sources<'a>, D: Drafts, W: Write>(
    alloc: Global,
    sources: &S,
    drafts: &D,
    files: Files<'_, 'a>,
    name: &'a str,
    out: &mut Watched<W>,
) -> Result<(), Fault<'a>>
    ensures written { OnOk result (WritesInput (S.content sources.now) files.entry.schema.now (map (λ s. s.now) files.entry.paths.now) (Some name.now)
        files.entry.end_mark (W.contents (inner_of out.old)) (W.contents (inner_of out.new))) }
    ensures fault { IfErr result (λ fault. IsWriteFault fault ⊎ StaysUnmarked files.entry.end_mark (W.contents (inner_of out.old)) (W.contents (inner_of out.new))) }
{
    let draft = begin_dictionary(drafts, name)?;
    match begin_with(alloc, sources, files, name, out) {
        Ok(made) => write_with(drafts, draft, name, made, out),
        Err(fault) => {
            drafts.discard(draft);
            Err(fault)
        }
    }
}

/// Encodes without a dictionary.
fn encode_without<'a, S: Sources<'a>, W: Write>(
    alloc: Global,
    sources: &S,
    files: Files<'_, 'a>,
    out: &mut Watched<W>,
) -> Result<(), Fault<'a>>
    ensures written { OnOk result (WritesInput (S.content sources.now) files.entry.schema.now (map (λ s. s.now) files.entry.paths.now) None
        files.entry.end_mark (W.contents (inner_of out.old)) (W.contents (inner_of out.new))) }
    ensures fault { IfErr result (λ fault. IsWriteFault fault ⊎ StaysUnmarked files.entry.end_mark (W.contents (inner_of out.old)) (W.contents (inner_of out.new))) }
{
    if needs_dictionary(files.schema) {
        return Err(Fault::Words(WordFault::NoDictionary));
    }
    let mut none = Dictionary::new(alloc);
    let rest = begin_input(alloc, sources, files, &mut none, out)?;
    write_text(rest.as_slice(), out)
}

/// Encodes by the schema that was read.
fn encode_by<'a, S: Sources<'a>, D: Drafts, W: Write>(
    alloc: Global,
    sources: &S,
    drafts: &D,
    schema: &Schema,
    asked: Encoding<'a, '_>,
    out: &mut Watched<W>,
) -> Result<(), Fault<'a>>
    requires read { IsReadSchema (S.content sources.now asked.schema.now) schema.now }
    ensures written { OnOk result (HasEncoded (S.content sources.now) asked.entry.schema.now (map (λ s. s.now) asked.entry.files.now) (option_map (λ s. s.now) asked.entry.dictionary)
        asked.entry.end_mark (W.contents (inner_of out.old)) (W.contents (inner_of out.new))) }
    ensures fault { IfErr result (λ fault. IsWriteFault fault ⊎ StaysUnmarked asked.entry.end_mark (W.contents (inner_of out.old)) (W.contents (inner_of out.new))) }
{
    let paths = paths_of(alloc, schema, asked.files)?;
    if is_input_twice(&[asked.schema], paths.as_slice()) {
        return Err(Fault::Words(WordFault::InputTwice));
    }
    let files = Files {
        schema,
        paths: paths.as_slice(),
        end_mark: asked.end_mark,
    };
    match asked.dictionary {
        Some(name) => encode_with(alloc, sources, drafts, files, name, out),
        None => encode_without(alloc, sources, files, out),
    }
}

/// Writes the input text of the files, and then keeps the dictionary. With an end mark lines are written as they are read; else the text is written when it is
/// whole. So at a fault nothing is written, or a text that doesn't end with the mark, unless the writer or the dictionary's file failed.
pub fn encode_files<'a, S: Sources<'a>, D: Drafts, W: Write>(
    alloc: Global,
    sources: &S,
    drafts: &D,
    asked: Encoding<'a, '_>,
    out: &mut Watched<W>,
) -> Result<(), Fault<'a>>
    ensures written { OnOk result (HasEncoded (S.content sources.now) asked.entry.schema.now (map (λ s. s.now) asked.entry.files.now) (option_map (λ s. s.now) asked.entry.dictionary)
        asked.entry.end_mark (W.contents (inner_of out.old)) (W.contents (inner_of out.new))) }
    ensures fault { IfErr result (λ fault. IsWriteFault fault ⊎ StaysUnmarked asked.entry.end_mark (W.contents (inner_of out.old)) (W.contents (inner_of out.new))) }
{
    let schema = schema_of(alloc, sources, asked.schema)?;
    encode_by(alloc, sources, drafts, &schema, asked, out)
}
