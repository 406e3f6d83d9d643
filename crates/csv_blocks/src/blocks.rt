//! Blocks of whole records.

ghost use Rattle.std.specs.Prelude.{◌≡◌, ◌≢◌, ◌<◌, ◌≤◌, ◌+◌, ◌^◌, ◌++◌, ◌∷◌, ◌⊎◌, ℕ, List, [], Option, Some, drop, length, true, IfErr, IfNone, IfOk, IfSome, IsErrOf, OnOk};
ghost use Rattle.csv.specs.Reading.{strip_bom};
ghost use Rattle.csv_strict.specs.Strict.{IsStrict, run};
ghost use Rattle.csv_strict.specs.declared.state.State.TheVariants.{Record};
ghost use Rattle.csv_blocks.specs.Texts.{lines};

use crate::fault::BlockFault;
use crate::lines::{count_lines, without_mark};
use crate::scanning::scan;
use collector::Watched;
use csv_strict::{Refusal, State, check_text};
use std::alloc::{AllocError, Global};
use std::io::Read;
use std::mem;

/// A block is handed out once it has more bytes than that.
const BLOCK: usize = 65_536;

/// How many bytes are read at once.
const PIECE: usize = 16_384;

/// The block that was read last, and what is held behind it. After a fault it is of no use.
#[derive(Drop)]
pub struct Blocks {
    alloc: Global,
    /// A line feed, and then the block.
    block: Vec<u8>,
    /// The beginning of the record behind the block; of the whole text, until a byte order mark was looked for.
    rest: Vec<u8>,
    /// What was read of that record.
    state: State,
    /// The number of line feeds before the block.
    lines: u64,
    /// Whether a byte order mark was looked for.
    begun: bool,
    ghost feed: { block.items ≡ 10 ∷ drop 1 block.items },
    ghost reached: { begun ≡ true → run (Some Record) rest.items ≡ Some state },
}

/// These bytes, one behind the other.
fn joined(alloc: Global, first: &[u8], second: &[u8]) -> Result<Vec<u8>, AllocError>
    ensures { IfOk result (λ v. v.items ≡ first.now ++ second.now) }
{
    let mut bytes = Vec::from_slice(alloc, first)?;
    bytes.extend_from_slice(second)?;
    Ok(bytes)
}

impl Blocks {
    ghost use Rattle.std.specs.Io.KnownBytes.{Consumes, IsAtEnd};
    ghost use Rattle.collector.specs.Watching.{handed, has_ended, has_failed, inner_of};
    ghost use Rattle.csv_blocks.specs.Blocks.{Holds, IsAt, IsFaultOf, IsFilled, IsLast, IsStuck, block_of, rest_of};
    ghost use Rattle.csv_blocks.specs.Moves.{Ends, Keeps, Moves, size_of};

    /// The blocks of a text of which nothing was read.
    pub fn new(alloc: Global) -> Result<Blocks, AllocError>
        ensures { IfOk result (λ b. IsAt [] b []) }
    {
        Ok(Blocks {
            alloc,
            block: Vec::from_slice(alloc, b"\n")?,
            rest: Vec::new(alloc),
            state: State::Record,
            lines: 0,
            begun: false,
        })
    }

    /// The block, behind a line feed, which a CSV reader skips.
    pub fn block(&self) -> &[u8]
        ensures { result.now ≡ 10 ∷ block_of self.now }
    {
        self.block.as_slice()
    }

    /// The number of line feeds before the block.
    pub fn lines_before(&self) -> u64
        ensures { result ≡ self.now.lines }
    {
        self.lines
    }

    /// The number of line feeds before the rest.
    fn lines_behind(&self) -> Option<u64>
        ensures some { IfSome result (λ n. n ≡ self.now.lines + lines (block_of self.now)) }
        ensures none { IfNone result (2 ^ 64 ≤ self.now.lines + lines (block_of self.now)) }
    {
        self.lines
            .checked_add(count_lines(&self.block.as_slice()[1..]))
    }

    /// The first fault of the text that ends with the rest and these bytes.
    fn fault_of(&self, bytes: &[u8]) -> BlockFault
        requires { ¬ IsStrict (rest_of self.now ++ bytes.now) }
        ensures told { (done text : List ℕ) → Holds done self.now text → IsFaultOf (text ++ bytes.now) result }
        ensures own { result ≢ BlockFault.Read }
    {
        let Ok(text) = joined(self.alloc, self.rest.as_slice(), bytes) else {
            return BlockFault::NoMemory;
        };
        let Err(found) = check_text(text.as_slice()) else {
            unreachable!();
        };
        let Some(before) = self.lines_behind() else {
            return BlockFault::Count;
        };
        let Some(line) = before.checked_add(found.line) else {
            return BlockFault::Count;
        };
        BlockFault::Text(Refusal {
            fault: found.fault,
            line,
        })
    }

    /// Puts the rest and these bytes to the block.
    fn keep(&mut self, ends: &[u8]) -> Result<(), AllocError>
        ensures { OnOk result (Keeps self.old self.new ends.now) }
    {
        self.block.extend_from_slice(self.rest.as_slice())?;
        self.block.extend_from_slice(ends)?;
        self.rest.clear();
        self.state = State::Record;
        Ok(())
    }

    /// Reads on, in a text whose mark was looked for.
    fn read_on(&mut self, piece: &[u8]) -> Result<(), BlockFault>
        requires { self.old.begun ≡ true }
        ensures moves { OnOk result (Moves self.old self.new (rest_of self.old ++ piece.now)) }
        ensures stuck { IfErr result (λ fault. (done text tail : List ℕ) → Holds done self.old text → IsFaultOf ((text ++ piece.now) ++ tail) fault) }
        ensures own { IfErr result (λ fault. fault ≢ BlockFault.Read) }
    {
        let Some((count, state)) = scan(self.state, piece) else {
            return Err(self.fault_of(piece));
        };
        if count > 0 {
            self.keep(&piece[..count])?;
        }
        self.rest.extend_from_slice(&piece[count..])?;
        self.state = state;
        Ok(())
    }

    /// Looks for a mark before the rest, and reads what comes behind it.
    fn begin(&mut self) -> Result<(), BlockFault>
        ensures moves { OnOk result (Moves self.old self.new (strip_bom (rest_of self.old))) }
        ensures stuck { IfErr result (λ fault. (text tail : List ℕ) → Holds [] self.old text → block_of self.old ≡ [] → IsFaultOf (strip_bom text ++ tail) fault) }
        ensures own { IfErr result (λ fault. fault ≢ BlockFault.Read) }
    {
        let text = mem::replace(&mut self.rest, Vec::new(self.alloc));
        self.state = State::Record;
        self.begun = true;
        self.read_on(without_mark(text.as_slice()))
    }

    /// Takes the next bytes of the text.
    fn take(&mut self, piece: &[u8]) -> Result<(), BlockFault>
        ensures taken { OnOk result ((done text : List ℕ) → IsAt done self.old text → IsAt done self.new (text ++ piece.now)) }
        ensures grows { OnOk result (size_of self.old + length piece.now ≤ size_of self.new) }
        ensures stuck { IfErr result (λ fault. (done text : List ℕ) → IsAt done self.old text → IsStuck (text ++ piece.now) fault) }
        ensures own { IfErr result (λ fault. fault ≢ BlockFault.Read) }
    {
        if self.begun {
            return self.read_on(piece);
        }
        self.rest.extend_from_slice(piece)?;
        if self.rest.len() < 3 {
            return Ok(());
        }
        self.begin()
    }

    /// The end of the text whose mark was looked for.
    fn end(&mut self) -> Result<(), BlockFault>
        requires { self.old.begun ≡ true }
        ensures ends { OnOk result (Ends self.old self.new) }
        ensures faulty { IfErr result (λ fault. (done text : List ℕ) → Holds done self.old text → IsFaultOf text fault) }
        ensures own { IfErr result (λ fault. fault ≢ BlockFault.Read) }
    {
        if !self.state.may_end() {
            return Err(self.fault_of(b""));
        }
        self.keep(b"")?;
        Ok(())
    }

    /// The end of the text.
    fn finish(&mut self) -> Result<(), BlockFault>
        ensures last { OnOk result ((done text : List ℕ) → IsAt done self.old text → IsLast done self.new text) }
        ensures faulty { IfErr result (λ fault. (done text : List ℕ) → IsAt done self.old text → IsFaultOf (strip_bom text) fault) }
        ensures own { IfErr result (λ fault. fault ≢ BlockFault.Read) }
    {
        if !self.begun {
            self.begin()?;
        }
        self.end()
    }

    /// Drops the block.
    fn drop_block(&mut self) -> Result<(), BlockFault>
        ensures dropped { OnOk result ((done text : List ℕ) → IsAt done self.old text → IsAt (done ++ block_of self.old) self.new text) }
        ensures stuck { IfErr result (λ fault. (done text : List ℕ) → IsAt done self.old text → IsStuck text fault) }
        ensures own { IfErr result (λ fault. fault ≢ BlockFault.Read) }
    {
        let Some(lines) = self.lines_behind() else {
            return Err(BlockFault::Count);
        };
        self.lines = lines;
        self.block.truncate(1);
        Ok(())
    }

    /// Reads the next block: at least one whole record, and as many as came with the pieces; or all that is left, at the end of the text. Says whether the
    /// text has ended.
    pub fn fill<R: Read>(&mut self, source: &mut Watched<R>) -> Result<bool, BlockFault>
        ensures filled { (done : List ℕ) → IsAt done self.old (handed source.old) → IfOk result (λ last. IsFilled last (done ++ block_of self.old) self.new (handed source.new)) }
        ensures refused { (done : List ℕ) → IsAt done self.old (handed source.old) → IfErr result (λ fault. IsStuck (handed source.new) fault
            ⊎ (IsAtEnd (R.remaining (inner_of source.new)) × IsFaultOf (strip_bom (handed source.new)) fault)) }
        ensures ended { IfOk result (λ last. last ≡ true → (has_ended source.new ≡ true) × IsAtEnd (R.remaining (inner_of source.new))) }
        ensures failed { IsErrOf result BlockFault.Read → has_failed source.new ≡ true }
        ensures consumed { (start : Option (List ℕ)) → Consumes start (R.remaining (inner_of source.old)) (handed source.old)
            → Consumes start (R.remaining (inner_of source.new)) (handed source.new) }
    {
        self.drop_block()?;
        let mut piece = [0; PIECE];
        'pieces: loop {
            let Ok(count) = source.pull(&mut piece) else {
                return Err(BlockFault::Read);
            };
            if count == 0 {
                self.finish()?;
                return Ok(true);
            }
            self.take(&piece[..count])?;
            if self.block.len() > BLOCK {
                return Ok(false);
            }
        }
    }
}
